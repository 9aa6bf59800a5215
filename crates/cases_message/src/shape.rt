//! Bodies, as lines say them.
use crate::stalling::Stalling;
use crate::words::{bytes_of, first_piece};
use cases::{CaseError, pair, parsed};
use rkt_data::MemorySource;
use rkt_message::Body;
use std::alloc::Global;

/// What a line tells of a body beside its text.
#[derive(Drop)]
pub struct Shape {
    pub position: usize,
    pub size: Option<usize>,
    pub chunk: usize,
    step: usize,
    row: u32,
    waits: u64,
    fails: Vec<u64>,
}

impl Shape {
    fn new(alloc: Global) -> Shape {
        Shape {
            position: 0,
            size: None,
            chunk: 0,
            step: 2,
            row: 0,
            waits: 0,
            fails: Vec::new(alloc),
        }
    }
}

/// Takes over an attribute of a source.
fn set_source_attribute(shape: &mut Shape, name: &str, value: &str) -> Result<(), CaseError> {
    match name {
        "step" => shape.step = parsed::<usize>(value)?,
        "row" => shape.row = parsed::<u32>(value)?,
        "waits" => shape.waits = parsed::<u64>(value)?,
        "fails" => shape.fails.push(parsed::<u64>(value)?)?,
        _ => return Err(CaseError::Line),
    }
    Ok(())
}

/// Takes over an attribute.
fn set_attribute(shape: &mut Shape, name: &str, value: &str) -> Result<(), CaseError> {
    match name {
        "position" => shape.position = parsed::<usize>(value)?,
        "size" => shape.size = Some(parsed::<usize>(value)?),
        "chunk" => shape.chunk = parsed::<usize>(value)?,
        _ => return set_source_attribute(shape, name, value),
    }
    Ok(())
}

/// Takes over the attribute that a piece says.
fn set_piece(shape: &mut Shape, piece: &str) -> Result<(), CaseError> {
    let (name, value) = pair(piece, "=")?;
    set_attribute(shape, name, value)
}

/// Takes over the attributes `NAME=VALUE; ..`, of which there may be none.
fn set_pieces(shape: &mut Shape, text: &str) -> Result<(), CaseError> {
    if text.is_empty() {
        return Ok(());
    }
    for piece in text.split("; ") {
        set_piece(shape, piece)?;
    }
    Ok(())
}

/// The bytes of a body, and what stands behind them.
pub fn sized(alloc: Global, line: &str) -> Result<(Vec<u8>, Shape), CaseError> {
    let (text, attributes) = first_piece(line);
    let mut shape = Shape::new(alloc);
    set_pieces(&mut shape, attributes)?;
    Ok((bytes_of(alloc, text)?, shape))
}

/// The source over these bytes.
fn source_of(bytes: Vec<u8>, shape: Shape) -> Stalling {
    let Shape {
        step,
        row,
        waits,
        fails,
        ..
    } = shape;
    Stalling::new(MemorySource::new(bytes, step, fails), row, waits)
}

/// The source that a line says.
pub fn source(alloc: Global, line: &str) -> Result<Stalling, CaseError> {
    let (bytes, shape) = sized(alloc, line)?;
    Ok(source_of(bytes, shape))
}

/// A body of bytes.
fn sized_body(alloc: Global, line: &str) -> Result<Body<Stalling>, CaseError> {
    let (bytes, shape) = sized(alloc, line)?;
    Ok(Body::with_sized(bytes, shape.position, shape.size))
}

/// A body of a source.
fn streamed_body(alloc: Global, line: &str) -> Result<Body<Stalling>, CaseError> {
    let stream = source(alloc, line)?;
    Ok(Body::with_unsized(stream))
}

/// The body that a line says.
pub fn body_of(alloc: Global, kind: &str, text: &str) -> Result<Body<Stalling>, CaseError> {
    match kind {
        "none" => Ok(Body::none()),
        "default" => Ok(Body::default()),
        "unsized" => Ok(Body::unsized_none()),
        "sized" => sized_body(alloc, text),
        "streamed" => streamed_body(alloc, text),
        _ => Err(CaseError::Line),
    }
}
