ghost use Rattle.std.specs.Prelude.{◌≡◌, option_copied};
ghost use Rattle.rkt_http.specs.Status.{class_of, reason_of};

use crate::reasons::REASONS;
use crate::table::text_at;

/// A status by its code (RFC 9110, 15).
#[derive(Clone, Copy, Debug, PartialEq, Eq, PartialOrd, Ord, Hash)]
pub struct Status {
    pub code: u16,
}

/// The classes of statuses, by their hundreds.
#[derive(Clone, Copy, Debug, PartialEq, Eq, PartialOrd, Ord, Hash)]
pub enum StatusClass {
    Informational,
    Success,
    Redirection,
    ClientError,
    ServerError,
    Unknown,
}

impl Status {
    pub fn new(code: u16) -> Status
        ensures { result.code ≡ code }
    {
        Status { code }
    }

    pub fn class(self) -> StatusClass
        ensures { result ≡ class_of self.code }
    {
        match self.code / 100 {
            1 => StatusClass::Informational,
            2 => StatusClass::Success,
            3 => StatusClass::Redirection,
            4 => StatusClass::ClientError,
            5 => StatusClass::ServerError,
            _ => StatusClass::Unknown,
        }
    }

    /// The reason phrase, if the code has one.
    pub fn reason(self) -> Option<&'static str>
        ensures { option_copied result ≡ reason_of self.code }
    {
        text_at(&REASONS, self.code)
    }
}

/// A constant for each code that has a reason.
impl Status {
    pub const Continue: Status = Status { code: 100 };

    pub const SwitchingProtocols: Status = Status { code: 101 };

    pub const Processing: Status = Status { code: 102 };

    pub const Ok: Status = Status { code: 200 };

    pub const Created: Status = Status { code: 201 };

    pub const Accepted: Status = Status { code: 202 };

    pub const NonAuthoritativeInformation: Status = Status { code: 203 };

    pub const NoContent: Status = Status { code: 204 };

    pub const ResetContent: Status = Status { code: 205 };

    pub const PartialContent: Status = Status { code: 206 };

    pub const MultiStatus: Status = Status { code: 207 };

    pub const AlreadyReported: Status = Status { code: 208 };

    pub const ImUsed: Status = Status { code: 226 };

    pub const MultipleChoices: Status = Status { code: 300 };

    pub const MovedPermanently: Status = Status { code: 301 };

    pub const Found: Status = Status { code: 302 };

    pub const SeeOther: Status = Status { code: 303 };

    pub const NotModified: Status = Status { code: 304 };

    pub const UseProxy: Status = Status { code: 305 };

    pub const TemporaryRedirect: Status = Status { code: 307 };

    pub const PermanentRedirect: Status = Status { code: 308 };

    pub const BadRequest: Status = Status { code: 400 };

    pub const Unauthorized: Status = Status { code: 401 };

    pub const PaymentRequired: Status = Status { code: 402 };

    pub const Forbidden: Status = Status { code: 403 };

    pub const NotFound: Status = Status { code: 404 };

    pub const MethodNotAllowed: Status = Status { code: 405 };

    pub const NotAcceptable: Status = Status { code: 406 };

    pub const ProxyAuthenticationRequired: Status = Status { code: 407 };

    pub const RequestTimeout: Status = Status { code: 408 };

    pub const Conflict: Status = Status { code: 409 };

    pub const Gone: Status = Status { code: 410 };

    pub const LengthRequired: Status = Status { code: 411 };

    pub const PreconditionFailed: Status = Status { code: 412 };

    pub const PayloadTooLarge: Status = Status { code: 413 };

    pub const UriTooLong: Status = Status { code: 414 };

    pub const UnsupportedMediaType: Status = Status { code: 415 };

    pub const RangeNotSatisfiable: Status = Status { code: 416 };

    pub const ExpectationFailed: Status = Status { code: 417 };

    pub const ImATeapot: Status = Status { code: 418 };

    pub const MisdirectedRequest: Status = Status { code: 421 };

    pub const UnprocessableEntity: Status = Status { code: 422 };

    pub const Locked: Status = Status { code: 423 };

    pub const FailedDependency: Status = Status { code: 424 };

    pub const UpgradeRequired: Status = Status { code: 426 };

    pub const PreconditionRequired: Status = Status { code: 428 };

    pub const TooManyRequests: Status = Status { code: 429 };

    pub const RequestHeaderFieldsTooLarge: Status = Status { code: 431 };

    pub const UnavailableForLegalReasons: Status = Status { code: 451 };

    pub const InternalServerError: Status = Status { code: 500 };

    pub const NotImplemented: Status = Status { code: 501 };

    pub const BadGateway: Status = Status { code: 502 };

    pub const ServiceUnavailable: Status = Status { code: 503 };

    pub const GatewayTimeout: Status = Status { code: 504 };

    pub const HttpVersionNotSupported: Status = Status { code: 505 };

    pub const VariantAlsoNegotiates: Status = Status { code: 506 };

    pub const InsufficientStorage: Status = Status { code: 507 };

    pub const LoopDetected: Status = Status { code: 508 };

    pub const NotExtended: Status = Status { code: 510 };

    pub const NetworkAuthenticationRequired: Status = Status { code: 511 };
}
