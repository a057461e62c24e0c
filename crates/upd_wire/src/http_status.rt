//! The statuses of answers, and the types of their bodies.

ghost use Rattle.std.specs.Prelude.{◌≡◌, ◌≤◌, length};
ghost use Rattle.upd_wire.specs.Statuses.{fault_status, media_text, reason_of};

use http::StatusCode;
use upd_text::FaultKind;

/// The status that answers a fault.
pub(crate) fn status_of(kind: FaultKind) -> StatusCode
    ensures { result ≡ fault_status kind }
{
    match kind {
        FaultKind::BadName
        | FaultKind::BadCard
        | FaultKind::BadSite
        | FaultKind::BadNumber
        | FaultKind::BadMode
        | FaultKind::BadFrame => StatusCode::BAD_REQUEST,
        FaultKind::DeckUnknown | FaultKind::CardUnknown => StatusCode::NOT_FOUND,
        FaultKind::RunChanged => StatusCode::CONFLICT,
        FaultKind::Settled => StatusCode::GONE,
        FaultKind::RunLong => StatusCode::PAYLOAD_TOO_LARGE,
        FaultKind::NoMemory | FaultKind::Store => StatusCode::SERVICE_UNAVAILABLE,
        _ => StatusCode::UNPROCESSABLE_ENTITY,
    }
}

/// The reason that goes with a status, or an empty text if it has none.
pub(crate) fn reason(status: StatusCode) -> &'static str
    ensures value { result.now ≡ reason_of status }
    ensures short { length result.now ≤ 32 }
{
    status.canonical_reason().unwrap_or("")
}

/// The type of a body.
#[derive(Clone, Copy, Debug, PartialEq, Eq)]
pub enum Media {
    Json,
    Plain,
}

impl Media {
    pub(crate) fn text(self) -> &'static str
        ensures value { result.now ≡ media_text self }
        ensures short { length result.now ≤ 16 }
    {
        match self {
            Media::Json => "application/json",
            Media::Plain => "text/plain",
        }
    }
}
