//! Parameters of statements.
ghost use Rattle.std.specs.Prelude.{◌≡◌, ◌≤◌, ◌^◌, IfErr, IfOk, [], ◌∷◌};
ghost use Rattle.sqlite_value.specs.Value.{owned};
ghost use Rattle.sqlite_value.specs.declared.value.Value.TheVariants.{Text, Blob};
ghost use Rattle.upd_sql.specs.Encoded.{flag, kind_code, num, target_code};

use sqlite::types::ValueRef;
use sqlite::{Error, ErrorCode};
use upd_core::{Kind, Name, Serial, Target};

pub(crate) fn number(n: u32) -> ValueRef<'static>
    ensures { owned result ≡ num n }
{
    ValueRef::Int(i64::from(n))
}

/// 1 for true, 0 for false.
pub(crate) fn flag(b: bool) -> ValueRef<'static>
    ensures { owned result ≡ flag b }
{
    ValueRef::Int(i64::from(b))
}

/// 0 set, 1 deck, 2 common deck.
pub(crate) fn kind(kind: Kind) -> ValueRef<'static>
    ensures { owned result ≡ num (kind_code kind) }
{
    number(match kind {
        Kind::Set => 0,
        Kind::Deck => 1,
        Kind::Common => 2,
    })
}

pub(crate) fn name(name: &Name) -> ValueRef<'_>
    ensures { owned result ≡ Text name.now }
{
    ValueRef::Text(name.as_bytes())
}

pub(crate) fn text(bytes: &[u8]) -> ValueRef<'_>
    ensures { owned result ≡ Text bytes.now }
{
    ValueRef::Text(bytes)
}

pub(crate) fn site(site: &str) -> ValueRef<'_>
    ensures { owned result ≡ Text site.now }
{
    ValueRef::Text(site.as_bytes())
}

pub(crate) fn blob(bytes: &[u8]) -> ValueRef<'_>
    ensures { owned result ≡ Blob bytes.now }
{
    ValueRef::Blob(bytes)
}

/// A number of 64 bits, which the tables hold up to 2^63 - 1.
pub(crate) fn integer_of(n: u64) -> Result<ValueRef<'static>, Error>
    ensures value { IfOk result (λ v. owned v ≡ num n) }
    ensures failed { IfErr result (λ e. (2 ^ 63 ≤ n) × (e ≡ Error.SqliteFailure ErrorCode.TooBig)) }
{
    match i64::try_from(n) {
        Ok(n) => Ok(ValueRef::Int(n)),
        Err(_) => Err(Error::SqliteFailure(ErrorCode::TooBig)),
    }
}

/// The three columns of a target.
#[derive(Clone, Copy, Debug)]
pub(crate) struct Codes {
    pub(crate) kind: u32,
    pub(crate) target: Serial,
    pub(crate) deck: Serial,
}

pub(crate) fn codes_of(target: Target) -> Codes
    ensures { num result.kind ∷ num result.target ∷ num result.deck ∷ [] ≡ target_code target }
{
    match target {
        Target::Set(set) => Codes {
            kind: 0,
            target: set,
            deck: 0,
        },
        Target::SetIn(set, deck) => Codes {
            kind: 1,
            target: set,
            deck,
        },
        Target::Deck(deck) => Codes {
            kind: 2,
            target: deck,
            deck: 0,
        },
    }
}
