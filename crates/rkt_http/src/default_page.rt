//! The pages that a server sends by itself.

ghost use Rattle.std.specs.Prelude.{◌≡◌, ◌≤◌, ◌<◌, ◌+◌, ◌*◌, IfOk, length, option_copied, string_bytes};
ghost use Rattle.std.specs.Fmt.{decimal};
ghost use Rattle.rkt_http.specs.Table.{row_at};
ghost use Rattle.rkt_http.specs.DefaultPage.{shown, descriptions, page_of, page_reason_of, description_of, html_page, json_page, html_text as html_text_of, json_text as json_text_of};

use crate::status::Status;
use crate::table::text_at;
use rkt_base::{NoMemory, Text};
use std::alloc::Global;

/// What a page says of a code.
#[derive(Clone, Copy)]
struct PageText {
    reason: &'static str,
    description: &'static str,
}

const UNKNOWN: PageText = PageText {
    reason: "Unknown Error",
    description: "An unknown error has occurred.",
};

/// What the page of a code of its own describes.
fn own_description(code: u16) -> Option<&'static str>
    ensures { option_copied result ≡ row_at code descriptions }
{
    text_at(&DESCRIPTIONS, code)
}

#[tactic(auto, using(crate::proofs::Pages::page_of_both, crate::proofs::Pages::page_undescribed, crate::proofs::Pages::page_without_reason))]
fn text_of(status: Status) -> PageText
    ensures { shown result ≡ page_of status.code }
{
    let Some(description) = own_description(status.code) else {
        return UNKNOWN;
    };
    let Some(reason) = status.reason() else {
        return UNKNOWN;
    };
    PageText {
        reason,
        description,
    }
}

fn html_text(alloc: Global, code: u16, reason: &str, description: &str) -> Result<String, NoMemory>
    ensures { IfOk result (λ text. string_bytes text ≡ html_text_of (decimal code) reason.now description.now) }
{
    format!(in alloc;
        "<!DOCTYPE html>
<html lang=\"en\">
<head>
    <meta charset=\"utf-8\">
    <meta name=\"color-scheme\" content=\"light dark\">
    <title>{code} {reason}</title>
</head>
<body align=\"center\">
    <div role=\"main\" align=\"center\">
        <h1>{code}: {reason}</h1>
        <p>{description}</p>
        <hr />
    </div>
    <div role=\"contentinfo\" align=\"center\">
        <small>Rocket</small>
    </div>
</body>
</html>"
    )
}

fn json_text(alloc: Global, code: u16, reason: &str, description: &str) -> Result<String, NoMemory>
    ensures { IfOk result (λ text. string_bytes text ≡ json_text_of (decimal code) reason.now description.now) }
{
    format!(in alloc;
        "{{
  \"error\": {{
    \"code\": {code},
    \"reason\": \"{reason}\",
    \"description\": \"{description}\"
  }}
}}"
    )
}

/// The HTML page of a status.
pub fn html(alloc: Global, status: Status) -> Result<Text, NoMemory>
    ensures page { IfOk result (λ page. page ≡ html_page status.code) }
    ensures size { IfOk result (λ page. 100 ≤ status.code → status.code < 1000 →
        length page ≡ 375 + 2 * length (page_reason_of status.code) + length (description_of status.code)) }
{
    let text = text_of(status);
    let page = html_text(alloc, status.code, text.reason, text.description)?;
    Ok(Text::from_string(page))
}

/// The JSON page of a status.
pub fn json(alloc: Global, status: Status) -> Result<Text, NoMemory>
    ensures page { IfOk result (λ page. page ≡ json_page status.code) }
    ensures size { IfOk result (λ page. 100 ≤ status.code → status.code < 1000 →
        length page ≡ 77 + length (page_reason_of status.code) + length (description_of status.code)) }
{
    let text = text_of(status);
    let page = json_text(alloc, status.code, text.reason, text.description)?;
    Ok(Text::from_string(page))
}

/// The descriptions of the pages of their own.
const DESCRIPTIONS: [(Status, &str); 31] = [
    (
        Status::BadRequest,
        "The request could not be understood by the server due to malformed syntax.",
    ),
    (
        Status::Unauthorized,
        "The request requires user authentication.",
    ),
    (
        Status::PaymentRequired,
        "The request could not be processed due to lack of payment.",
    ),
    (
        Status::Forbidden,
        "The server refused to authorize the request.",
    ),
    (
        Status::NotFound,
        "The requested resource could not be found.",
    ),
    (
        Status::MethodNotAllowed,
        "The request method is not supported for the requested resource.",
    ),
    (
        Status::NotAcceptable,
        "The requested resource is capable of generating only content not acceptable according to the Accept headers sent in the request.",
    ),
    (
        Status::ProxyAuthenticationRequired,
        "Authentication with the proxy is required.",
    ),
    (
        Status::RequestTimeout,
        "The server timed out waiting for the request.",
    ),
    (
        Status::Conflict,
        "The request could not be processed because of a conflict in the request.",
    ),
    (
        Status::Gone,
        "The resource requested is no longer available and will not be available again.",
    ),
    (
        Status::LengthRequired,
        "The request did not specify the length of its content, which is required by the requested resource.",
    ),
    (
        Status::PreconditionFailed,
        "The server does not meet one of the preconditions specified in the request.",
    ),
    (
        Status::PayloadTooLarge,
        "The request is larger than the server is willing or able to process.",
    ),
    (
        Status::UriTooLong,
        "The URI provided was too long for the server to process.",
    ),
    (
        Status::UnsupportedMediaType,
        "The request entity has a media type which the server or resource does not support.",
    ),
    (
        Status::RangeNotSatisfiable,
        "The portion of the requested file cannot be supplied by the server.",
    ),
    (
        Status::ExpectationFailed,
        "The server cannot meet the requirements of the Expect request-header field.",
    ),
    (
        Status::ImATeapot,
        "I was requested to brew coffee, and I am a teapot.",
    ),
    (
        Status::MisdirectedRequest,
        "The server cannot produce a response for this request.",
    ),
    (
        Status::UnprocessableEntity,
        "The request was well-formed but was unable to be followed due to semantic errors.",
    ),
    (
        Status::UpgradeRequired,
        "Switching to the protocol in the Upgrade header field is required.",
    ),
    (
        Status::PreconditionRequired,
        "The server requires the request to be conditional.",
    ),
    (
        Status::TooManyRequests,
        "Too many requests have been received recently.",
    ),
    (
        Status::RequestHeaderFieldsTooLarge,
        "The server is unwilling to process the request because either an individual header field, or all the header fields collectively, are too large.",
    ),
    (
        Status::UnavailableForLegalReasons,
        "The requested resource is unavailable due to a legal demand to deny access to this resource.",
    ),
    (
        Status::InternalServerError,
        "The server encountered an internal error while processing this request.",
    ),
    (
        Status::NotImplemented,
        "The server either does not recognize the request method, or it lacks the ability to fulfill the request.",
    ),
    (
        Status::ServiceUnavailable,
        "The server is currently unavailable.",
    ),
    (
        Status::GatewayTimeout,
        "The server did not receive a timely response from an upstream server.",
    ),
    (
        Status::NotExtended,
        "Further extensions to the request are required for the server to fulfill it.",
    ),
];
