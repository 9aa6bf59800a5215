ghost use Rattle.std.specs.Prelude.{◌≡◌, IfOk};
ghost use Rattle.rkt_media.specs.Media.{known_media, known_text, media_text};

use crate::media_type::MediaType;
use rkt_base::NoMemory;
use std::alloc::Global;

/// The media types with a name of their own.
#[derive(Clone, Copy, Debug, PartialEq, Eq)]
pub enum Known {
    Any,
    Plain,
    Text,
    Binary,
    JSON,
    JavaScript,
    MsgPack,
    HTML,
    CSS,
    XML,
    Form,
}

impl Known {
    /// The text of this media type.
    pub fn as_str(self) -> &'static str
        ensures text { result.now ≡ known_text self }
        // The media type prints so.
        ensures printed { result.now ≡ media_text (known_media self) }
    {
        match self {
            Known::Any => "*/*",
            Known::Plain | Known::Text => "text/plain; charset=utf-8",
            Known::Binary => "application/octet-stream",
            Known::JSON => "application/json",
            Known::JavaScript => "text/javascript",
            Known::MsgPack => "application/msgpack",
            Known::HTML => "text/html; charset=utf-8",
            Known::CSS => "text/css; charset=utf-8",
            Known::XML => "text/xml; charset=utf-8",
            Known::Form => "application/x-www-form-urlencoded",
        }
    }
}

impl MediaType {
    /// The media type of this name.
    pub fn known(alloc: Global, known: Known) -> Result<MediaType, NoMemory>
        ensures { IfOk result (λ media. media ≡ known_media known) }
    {
        match known {
            Known::Any => Ok(MediaType::any(alloc)),
            Known::Plain | Known::Text => MediaType::utf8_text(alloc, "plain"),
            Known::Binary => MediaType::bare(alloc, "application", "octet-stream"),
            Known::JSON => MediaType::bare(alloc, "application", "json"),
            Known::JavaScript => MediaType::bare(alloc, "text", "javascript"),
            Known::MsgPack => MediaType::bare(alloc, "application", "msgpack"),
            Known::HTML => MediaType::utf8_text(alloc, "html"),
            Known::CSS => MediaType::utf8_text(alloc, "css"),
            Known::XML => MediaType::utf8_text(alloc, "xml"),
            Known::Form => MediaType::bare(alloc, "application", "x-www-form-urlencoded"),
        }
    }
}
