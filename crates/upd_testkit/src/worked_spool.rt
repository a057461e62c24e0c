//! A worked spool of three frames, and its answers.

/// A run that introduces deck A, a run of no bytes, and a set X, which deletes a card.
pub const SPOOL: &str = "\
RUN LYON 1 full 22\n*DECK A\nONE\nTWO\nTHREE\n\n\
RUN LYON 2 quick 0\n\n\
RUN LYON 3 full 21\n*IDENT X\n*DELETE A.3\n\n";

/// The lines that answer it.
pub const ANSWERS: &str = "\
{\"compile\":\"ONE                                                                              A             2\\n\
TWO                                                                              A             3\\n\
THREE                                                                            A             4\\n\
\",\"idents\":[\"A\"],\"lines\":3,\"mode\":\"full\",\"run\":1,\"site\":\"LYON\",\"state\":\"accepted\"}\n\
{\"compile\":\"\",\"idents\":[],\"lines\":0,\"mode\":\"quick\",\"run\":2,\"site\":\"LYON\",\"state\":\"accepted\"}\n\
{\"compile\":\"ONE                                                                              A             2\\n\
THREE                                                                            A             4\\n\
\",\"idents\":[\"X\"],\"lines\":2,\"mode\":\"full\",\"run\":3,\"site\":\"LYON\",\"state\":\"accepted\"}\n";
