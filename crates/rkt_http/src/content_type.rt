ghost use Rattle.std.specs.Prelude.{◌≡◌, IfOk, codes};
ghost use Rattle.rkt_base.specs.Want.{IfRefused, GivesUnlessNoMemory};
ghost use Rattle.rkt_grammar.specs.Grammar.{LeavesAt};
ghost use Rattle.rkt_media.specs.MediaText.{SpellsMedia, IsMedia};
ghost use Rattle.rkt_media.specs.Media.{Media, media_text, is_kind, known_media, known_text};

use crate::header::Header;
use rkt_base::{NoMemory, Want};
use rkt_media::{InvalidMedia, Known, MediaType};
use std::alloc::Global;
use std::marker::Model;

/// The media type of a content.
#[derive(Debug, Drop)]
pub struct ContentType {
    media_type: MediaType,
}

impl Model for ContentType {
    ghost use Rattle.rkt_media.specs.Media.{Media};

    ghost Value = { Media };

    ghost view = { λ t. t.media_type };
}

impl ContentType {
    pub fn parse(alloc: Global, text: &str) -> Result<ContentType, Want<InvalidMedia>>
        ensures accepted { IfOk result (λ t. SpellsMedia text.now t) }
        ensures complete { (m : Media) → SpellsMedia text.now m → GivesUnlessNoMemory result m }
        ensures refused { IfRefused result (λ e. LeavesAt IsMedia text.now e.at) }
    {
        Ok(ContentType {
            media_type: MediaType::parse(alloc, text)?,
        })
    }

    pub fn known(alloc: Global, known: Known) -> Result<ContentType, NoMemory>
        ensures value { IfOk result (λ t. t ≡ known_media known) }
        ensures text { IfOk result (λ t. media_text t ≡ known_text known) }
    {
        Ok(ContentType {
            media_type: MediaType::known(alloc, known)?,
        })
    }

    /// A copy, by an allocator that is handed in.
    pub fn try_clone(&self, alloc: Global) -> Result<ContentType, NoMemory>
        ensures { IfOk result (λ t. t ≡ self.now) }
    {
        Ok(ContentType {
            media_type: self.media_type.try_clone(alloc)?,
        })
    }

    pub fn media_type(&self) -> &MediaType
        ensures { result.now ≡ self.now }
    {
        &self.media_type
    }

    /// Whether it is a form in a URL's encoding, whatever its parameters.
    pub fn is_form(&self) -> bool
        ensures { result ≡ is_kind (codes "application") (codes "x-www-form-urlencoded") self.now }
    {
        self.media_type
            .is_kind("application", "x-www-form-urlencoded")
    }

    /// The header of the content type of this name, from a text of the program's own: what `header` gives of `known`.
    pub fn known_header(alloc: Global, known: Known) -> Result<Header, NoMemory>
        ensures header { IfOk result (λ h. h ≡ record { name = codes "Content-Type"; value = known_text known }) }
        ensures same { IfOk result (λ h. h ≡ record { name = codes "Content-Type"; value = media_text (known_media known) }) }
    {
        Header::new(alloc, "Content-Type", known.as_str())
    }

    /// The header of this content type.
    pub fn header(&self, alloc: Global) -> Result<Header, NoMemory>
        ensures header { IfOk result (λ h. h ≡ record { name = codes "Content-Type"; value = media_text self.now }) }
        // The header's value is read again as the same content type.
        ensures read_again { IfOk result (λ h. SpellsMedia h.value self.now) }
    {
        let text = self.media_type.to_text(alloc)?;
        Header::new(alloc, "Content-Type", text.as_str())
    }
}

impl PartialEq for ContentType {
    ghost use Rattle.std.specs.Cmp.{partial_equiv_from_equiv};
    ghost use Rattle.rkt_media.specs.Media.{same_media};
    ghost use Rattle.rkt_media.specs.MediaEqualityLaws.{same_media_equiv};

    ghost eq = { same_media };

    ghost laws = { partial_equiv_from_equiv same_media_equiv };

    fn eq(&self, other: &ContentType) -> bool {
        self.media_type == other.media_type
    }
}

impl Eq for ContentType {
    ghost use Rattle.rkt_media.specs.MediaEqualityLaws.{same_media_equiv};

    ghost laws = { same_media_equiv };
}
