//! Checks: the error of one that fails ends the test, and says what was found.
use std::fmt::Debug;
use std::test::Fail;

/// Two values are the same; `what` names them in the error.
pub fn same<W: Debug + Drop, T: PartialEq + Debug + Drop>(
    what: W,
    found: T,
    wanted: T,
) -> Result<(), Fail> {
    if found == wanted {
        return Ok(());
    }
    Err(Fail::new(format_args!("{what:?}: {found:?}, not {wanted:?}")))
}

/// The number of bytes that two texts have in common at their front.
fn common_front(found: &str, wanted: &str) -> usize {
    let mut count: usize = 0;
    for (one, other) in found.bytes().zip(wanted.bytes()) {
        if one != other {
            break;
        }
        count = count.saturating_add(1);
    }
    count
}

/// Two texts are the same. The error shows them from the first byte that differs, since it holds 512 bytes.
pub fn same_text<W: Debug + Drop>(what: W, found: &str, wanted: &str) -> Result<(), Fail> {
    if found == wanted {
        return Ok(());
    }
    let at = common_front(found, wanted);
    let found = found.get(at..).unwrap_or(found);
    let wanted = wanted.get(at..).unwrap_or(wanted);
    Err(Fail::new(format_args!("{what:?}: from byte {at} {found:?}, not {wanted:?}")))
}

/// Something holds; `what` names it in the error.
pub fn holds<W: Debug + Drop>(what: W, is_so: bool) -> Result<(), Fail> {
    if is_so {
        return Ok(());
    }
    Err(Fail::new(format_args!("this does not hold: {what:?}")))
}
