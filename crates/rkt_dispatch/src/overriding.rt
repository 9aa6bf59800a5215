//! The method that the first field of a form sets.
ghost use Rattle.std.specs.List.{after_first, before_first};
ghost use Rattle.std.specs.Option.{option_copied};
ghost use Rattle.std.specs.Prelude.{◌≡◌, ◌&&◌, List, Option, option_and_then, ℕ};
ghost use Rattle.rkt_dispatch.specs.Overridden.{Overridden, first_field, is_form, is_post, method_in, set_method};
ghost use Rattle.rkt_media.specs.Media.{Media};
ghost use Rattle.rkt_request.specs.Seen.{IsContentType, Seen};
ghost use Rattle.rkt_uri.specs.Origin.{is_equals};

use rkt_http::Method;
use rkt_request::{Request, Types};

// The name and the value of a field.
fn name_and_value(field: &str) -> (&str, &str)
    ensures name { result.0.now ≡ before_first is_equals field.now }
    ensures value { result.1.now ≡ after_first is_equals field.now }
{
    field.split_once('=').unwrap_or((field, ""))
}

// The method that a field sets.
fn set_method(field: &str) -> Option<Method>
    ensures { result ≡ set_method field.now }
{
    let (name, value) = name_and_value(field);
    if name == "_method" {
        return Method::from_str(value);
    }
    None
}

// The first field that is not empty.
fn first_field(form: &str) -> Option<&str>
    ensures { option_copied result ≡ first_field form.now }
{
    form.split('&').find(|field| !field.is_empty())
}

// The method that the first field of a text sets.
fn set_first(form: &str) -> Option<Method>
    ensures { result ≡ option_and_then set_method (first_field form.now) }
{
    set_method(first_field(form)?)
}

/// The method that the front of a form sets.
pub fn method_in(front: &[u8]) -> Option<Method>
    ensures { result ≡ method_in front.now }
{
    if front.len() < "_method=get".len() {
        return None;
    }
    match std::str::from_utf8(front) {
        Ok(form) => set_first(form),
        Err(_) => None,
    }
}

// Whether the content type of a request is that of a form.
fn has_form<T: Types>(request: &Request<'_, T>) -> bool
    ensures { (content_type : Option Media) × IsContentType request.now.headers content_type × (result ≡ is_form content_type) }
{
    match request.content_type() {
        Some(content_type) => content_type.is_form(),
        None => false,
    }
}

fn is_post(method: Method) -> bool
    ensures { result ≡ is_post method }
{
    method == Method::Post
}

// Whether a request is the POST of a form.
fn posts_form<T: Types>(request: &Request<'_, T>) -> bool
    ensures { (content_type : Option Media)
        × IsContentType request.now.headers content_type
        × (result ≡ (is_post request.now.method && is_form content_type)) }
{
    let form = has_form(request);
    is_post(request.method()) && form
}

/// Gives the POST of a form the method that its front sets, if it sets one.
pub fn override_method<T: Types>(request: &mut Request<'_, T>, method: Option<Method>)
    ensures { (front : List ℕ) → method ≡ method_in front → Overridden request.old front request.new }
{
    if posts_form(request) {
        let method = method.unwrap_or(request.method());
        request.set_method(method);
    }
}

/// A law of requests: whatever front of its body is seen, a request is overridden as just one.
pub fn has_one_override<T: Types>(request: &Request<'_, T>)
    ensures some { (front : List ℕ) → (opened : Seen T.Value) × Overridden request.now front opened }
    ensures once { (front : List ℕ) (a b : Seen T.Value)
        → Overridden request.now front a
        → Overridden request.now front b
        → a ≡ b }
{
    let _form = has_form(request);
}
