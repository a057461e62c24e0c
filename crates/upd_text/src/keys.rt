//! What names a run: its site and its number.

ghost use Rattle.std.specs.Prelude.{◌≡◌};
ghost use Rattle.std.specs.List.{list_all};
ghost use Rattle.upd_text.specs.Keys.{is_run_number, is_site, is_site_byte};

/// Whether a text is a site: 1 to 8 of `A-Z` and `0-9`.
pub fn is_site(text: &[u8]) -> bool
    ensures { result ≡ is_site text.now }
{
    1 <= text.len() && text.len() <= 8 && are_site_bytes(text)
}

fn are_site_bytes(text: &[u8]) -> bool
    ensures { result ≡ list_all is_site_byte text.now }
{
    text.iter().all(|&byte| is_site_byte(byte))
}

fn is_site_byte(byte: u8) -> bool
    ensures { result ≡ is_site_byte byte }
{
    byte.is_ascii_uppercase() || byte.is_ascii_digit()
}

/// Whether a number is a run's: 1 to 999,999,999.
pub fn is_run_number(number: u64) -> bool
    ensures { result ≡ is_run_number number }
{
    1 <= number && number <= 999_999_999
}
