//! The routes of the application, in mounting order, and its catchers, in the order in which they are registered.
use crate::page::Act::{Echoes, Errs, Faults, Greets, Makes, Passes, Peeks, Says};
use crate::page::Made::{
    Broken, Cached, Facts, Flash, Missing, NoContent, NotModified, Notice, Removal, Served, Stream,
};
use crate::page::Page;
use crate::page::Page::{Does, Marks, Waits};
use rkt_http::Method;
use rkt_http::Method::{Delete, Get, Head, Post};

/// A route: its method, the base below which it is mounted, its path there, its rank if it is not the default one, and what
/// answers.
pub type RouteRow = (Method, &'static str, &'static str, Option<i64>, Page);

/// A catcher: its base, its code, and what answers, if it is not the default page.
pub type CatcherRow = (&'static str, Option<u16>, Option<Page>);

pub static ROUTES: [RouteRow; 43] = [
    (Get, "/hello", "/<name>/<age>", None, Does(Greets)),
    (Get, "/", "/page", None, Does(Says("hello"))),
    (Head, "/", "/page", None, Does(Passes(422))),
    (Head, "/", "/gone", None, Does(Passes(422))),
    (Post, "/", "/form", None, Does(Says("post"))),
    (Delete, "/", "/form", None, Does(Says("delete"))),
    (Get, "/", "/trial", Some(1), Marks("a", Passes(404))),
    (Get, "/", "/trial", Some(2), Does(Says("tried"))),
    (Get, "/", "/spoiled", None, Marks("a", Errs(418))),
    (Get, "/", "/flash", None, Does(Makes(Flash))),
    (Post, "/", "/echo", None, Does(Echoes)),
    (Get, "/", "/broken", None, Does(Makes(Broken))),
    (Get, "/", "/ranked", Some(5), Does(Says("last"))),
    (Get, "/", "/ranked", Some(-20), Does(Passes(409))),
    (Get, "/", "/ranked", Some(4), Does(Passes(410))),
    (Get, "/", "/passed", None, Does(Passes(409))),
    (Post, "/", "/peeked", Some(1), Does(Peeks(422))),
    (Post, "/", "/peeked", Some(2), Does(Echoes)),
    (Get, "/", "/slow", None, Waits(2, Says("at last"))),
    (Get, "/", "/slow/twice", Some(1), Waits(1, Passes(404))),
    (Get, "/", "/slow/twice", Some(2), Waits(1, Says("twice"))),
    (Get, "/", "/faulty", None, Does(Faults)),
    (Get, "/", "/no/content", None, Does(Makes(NoContent))),
    (Get, "/", "/not/modified", None, Does(Makes(NotModified))),
    (Get, "/", "/stream", None, Does(Makes(Stream))),
    (Get, "/", "/removed", None, Does(Makes(Removal))),
    (Get, "/", "/cached", None, Does(Makes(Cached))),
    (Get, "/", "/notified", None, Does(Makes(Notice))),
    (Get, "/", "/own/teapot", None, Marks("a", Errs(418))),
    (Get, "/", "/own/conflict", None, Marks("a", Errs(409))),
    (Get, "/", "/own/faulty", None, Marks("a", Faults)),
    (Head, "/", "/head/error", None, Does(Errs(418))),
    (Get, "/", "/head/error", None, Does(Says("hello"))),
    (Head, "/", "/head/cookie", None, Marks("a", Passes(410))),
    (Get, "/", "/head/cookie", None, Marks("b", Says("hello"))),
    (Get, "/", "/passed", Some(0), Does(Passes(410))),
    (Get, "/told", "/route", None, Does(Makes(Facts))),
    (Get, "/", "/told/error", None, Does(Errs(418))),
    (Head, "/", "/told/head", None, Does(Errs(418))),
    (Get, "/", "/odd", None, Does(Errs(299))),
    (Get, "/", "/bad/faulty", None, Does(Faults)),
    (Get, "/", "/slow/removed", None, Waits(1, Makes(Removal))),
    (Get, "/", "/a/own", None, Does(Makes(Missing))),
];

pub static CATCHERS: [CatcherRow; 15] = [
    ("/a", Some(404), Some(Does(Says("404 at /a")))),
    ("/a/b", None, Some(Does(Says("default at /a/b")))),
    ("/bad", Some(404), Some(Does(Errs(418)))),
    ("/bad", Some(500), Some(Marks("k", Errs(418)))),
    ("/own", Some(400), Some(Marks("b", Says("400 at /own")))),
    ("/own", Some(409), Some(Marks("c", Errs(410)))),
    ("/own", Some(418), Some(Marks("b", Says("418 at /own")))),
    ("/own", Some(500), Some(Does(Says("500 at /own")))),
    ("/rocket", None, None),
    ("/slow", Some(404), Some(Waits(2, Says("404 at /slow")))),
    ("/slow", Some(500), Some(Waits(1, Says("500 at /slow")))),
    ("/torn", Some(404), Some(Does(Faults))),
    ("/torn/up", Some(500), Some(Does(Faults))),
    ("/told", None, Some(Does(Makes(Facts)))),
    ("/served", None, Some(Does(Makes(Served)))),
];
