//! Several tests as one.
ghost use Rattle.std.specs.Prelude.{◌≡◌, ◌&&◌};

/// Whether these three hold.
pub fn all_three(a: bool, b: bool, c: bool) -> bool
    ensures { result ≡ (a && (b && c)) }
{
    a && b && c
}

/// Whether these four hold.
pub fn all_four(a: bool, b: bool, c: bool, d: bool) -> bool
    ensures { result ≡ (a && (b && (c && d))) }
{
    a && b && c && d
}
