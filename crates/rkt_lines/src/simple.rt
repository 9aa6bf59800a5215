//! An application by the types of its callbacks, and what these answer.
use crate::AddsHeader;
use rkt_life::{
    Answering, AnsweringWith, AnswersWith, App, Catches, ChangesResponse, MemorySource, NoMemory,
    OnResponse, Parts, PlainText, Status, Stopped, Types,
};
use std::marker::PhantomData;

/// The application of the pages P, the catchers C and the changes of responses F, which manages values of V. It caches
/// nothing, tells no reasons for a shutdown apart, and its bodies are in memory. One of other parts says so by `Types`,
/// `Parts` and `App`.
pub struct Simple<P, C, F = AddsHeader, V = ()> {
    parts: PhantomData<(P, C, F, V)>,
}

impl<P, C, F, V: Drop> Types for Simple<P, C, F, V> {
    type Source = MemorySource;

    type Stream = MemorySource;

    type Cached = ();

    type Value = V;

    type Reason = Stopped;
}

impl<P: Drop, C: Drop, F, V: Drop> Parts for Simple<P, C, F, V> {
    type Handler = AnsweringWith<P>;

    type Catch = Answering<C>;

    type Sentinel = ();
}

impl<
    P: AnswersWith<Simple<P, C, F, V>> + Drop,
    C: Catches<Simple<P, C, F, V>> + Drop,
    F: ChangesResponse<Simple<P, C, F, V>> + Drop,
    V: Drop,
> App for Simple<P, C, F, V> {
    type Fairing = OnResponse<F>;
}

/// What a page answers, unless there is no memory.
pub type Answered<V = PlainText> = Result<V, NoMemory>;

/// What a catcher answers beside a status, unless there is no memory.
pub type Caught<V = PlainText> = Result<(Status, V), NoMemory>;
