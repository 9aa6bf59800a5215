ghost use Rattle.std.specs.Prelude.{◌≡◌, Some};
ghost use Rattle.rkt_http.specs.Method.{method_name, method_of, method_of_any_case, carries_payload};

/// The method of a request.
#[derive(Clone, Copy, Debug, PartialEq, Eq, PartialOrd, Ord, Hash)]
pub enum Method {
    Get,
    Put,
    Post,
    Delete,
    Options,
    Head,
    Trace,
    Connect,
    Patch,
}

const METHODS: [Method; 9] = [
    Method::Get,
    Method::Put,
    Method::Post,
    Method::Delete,
    Method::Options,
    Method::Head,
    Method::Trace,
    Method::Connect,
    Method::Patch,
];

impl Method {
    /// The method of this name in any case.
    pub fn from_str(text: &str) -> Option<Method>
        ensures { result ≡ method_of_any_case text.now }
    {
        METHODS
            .iter()
            .copied()
            .find(|method| method.as_str().eq_ignore_ascii_case(text))
    }

    /// The method of exactly this name, as it comes in a request line.
    pub fn from_wire(text: &str) -> Option<Method>
        ensures { result ≡ method_of text.now }
    {
        METHODS
            .iter()
            .copied()
            .find(|method| method.as_str() == text)
    }

    /// The name of the method.
    pub fn as_str(self) -> &'static str
        ensures name { result.now ≡ method_name self }
        // What is printed is read again as the same method.
        ensures read_again { method_of result.now ≡ Some self }
    {
        match self {
            Method::Get => "GET",
            Method::Put => "PUT",
            Method::Post => "POST",
            Method::Delete => "DELETE",
            Method::Options => "OPTIONS",
            Method::Head => "HEAD",
            Method::Trace => "TRACE",
            Method::Connect => "CONNECT",
            Method::Patch => "PATCH",
        }
    }

    /// Whether requests of this method carry a payload.
    pub fn supports_payload(self) -> bool
        ensures { result ≡ carries_payload self }
    {
        matches!(
            self,
            Method::Put | Method::Post | Method::Delete | Method::Patch
        )
    }
}
