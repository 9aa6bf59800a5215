ghost use Rattle.std.specs.Prelude.{◌≡◌, ◌∷◌, [], map};
ghost use Rattle.rkt_http.specs.Status.{reasons};

use crate::status::Status;

/// A law of the constants of `Status`: in the order of the table of reasons they have its codes.
pub fn constants_have_codes()
    ensures { map (λ (status : Status). status.code) (
        Status.Continue ∷
        Status.SwitchingProtocols ∷
        Status.Processing ∷
        Status.Ok ∷
        Status.Created ∷
        Status.Accepted ∷
        Status.NonAuthoritativeInformation ∷
        Status.NoContent ∷
        Status.ResetContent ∷
        Status.PartialContent ∷
        Status.MultiStatus ∷
        Status.AlreadyReported ∷
        Status.ImUsed ∷
        Status.MultipleChoices ∷
        Status.MovedPermanently ∷
        Status.Found ∷
        Status.SeeOther ∷
        Status.NotModified ∷
        Status.UseProxy ∷
        Status.TemporaryRedirect ∷
        Status.PermanentRedirect ∷
        Status.BadRequest ∷
        Status.Unauthorized ∷
        Status.PaymentRequired ∷
        Status.Forbidden ∷
        Status.NotFound ∷
        Status.MethodNotAllowed ∷
        Status.NotAcceptable ∷
        Status.ProxyAuthenticationRequired ∷
        Status.RequestTimeout ∷
        Status.Conflict ∷
        Status.Gone ∷
        Status.LengthRequired ∷
        Status.PreconditionFailed ∷
        Status.PayloadTooLarge ∷
        Status.UriTooLong ∷
        Status.UnsupportedMediaType ∷
        Status.RangeNotSatisfiable ∷
        Status.ExpectationFailed ∷
        Status.ImATeapot ∷
        Status.MisdirectedRequest ∷
        Status.UnprocessableEntity ∷
        Status.Locked ∷
        Status.FailedDependency ∷
        Status.UpgradeRequired ∷
        Status.PreconditionRequired ∷
        Status.TooManyRequests ∷
        Status.RequestHeaderFieldsTooLarge ∷
        Status.UnavailableForLegalReasons ∷
        Status.InternalServerError ∷
        Status.NotImplemented ∷
        Status.BadGateway ∷
        Status.ServiceUnavailable ∷
        Status.GatewayTimeout ∷
        Status.HttpVersionNotSupported ∷
        Status.VariantAlsoNegotiates ∷
        Status.InsufficientStorage ∷
        Status.LoopDetected ∷
        Status.NotExtended ∷
        Status.NetworkAuthenticationRequired ∷ [])
        ≡ map (λ row. row.0) reasons }
{}
