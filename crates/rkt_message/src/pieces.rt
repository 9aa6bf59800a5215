//! Sends a response piece by piece.
ghost use Rattle.std.specs.Prelude.{◌≡◌, ◌≢◌, ◌↔◌, ◌++◌, [], ◌∷◌, Ok, Err, true, false, max};
ghost use Rattle.rkt_base.specs.Poll.{IfReadyErr, IfReadyOk};
ghost use Rattle.rkt_base.specs.declared.poll.Poll.TheVariants.{Ready, Pending};
ghost use Rattle.rkt_message.specs.Sending.{PieceByGate, TakesFull};
ghost use Rattle.rkt_message.specs.Sent.{has_head};

use crate::chunk::{ChunkRead, next_chunk};
use crate::head::{has_head, head_of};
use crate::piece::{Piece, PieceError};
use crate::response::Response;
use crate::stage::Stage;
use rkt_base::{Poll, Trail};
use rkt_data::{Gate, Source};
use std::alloc::Global;
use std::marker::Model;
use std::snapshot::Snapshot;

// Gives a piece, behind those that were given.
fn give(given: &mut Trail<Piece>, piece: Piece) -> Poll<Result<Piece, PieceError>>
    ensures answer { result ≡ Ready (Ok piece) }
    ensures given { given.new ≡ given.old ++ piece ∷ [] }
{
    given.push(&piece);
    Poll::Ready(Ok(piece))
}

/// Gives the pieces that a response is sent as: its head, the chunks of its body, and the end.
#[derive(Drop)]
pub struct Pieces<S: Source> {
    response: Response<S>,
    begun: Snapshot<Response<S>>,
    turns: u32,
    waits: u32,
    stage: Stage,
    // Those that were given so far, for contracts alone.
    given: Trail<Piece>,
    // Where a source is read into.
    buffer: Vec<u8>,
}

impl<S: Source> Model for Pieces<S> {
    ghost use Rattle.rkt_message.specs.Sending.{IsSending, Sending, is_done};

    ghost Value = { Sending S };

    ghost view = { λ p. record {
      response = p.response;
      begun = p.begun.value;
      turns = p.turns;
      waits = p.waits;
      given = p.given;
      is_over = is_done p.stage;
    } };

    ghost invariant = { λ p. IsSending S.meaning p.stage p.response p.begun.value p.turns p.waits p.given };
}

impl<S: Source> Pieces<S> {
    ghost use Rattle.rkt_message.specs.Sending.{Answers, Gives, GivesUp, IsFront, ReadOn, ReadsOnUnder, Waits};

    /// Sends a response. Where the source of its body is Pending `turns` times in a row, the body has failed; 0 counts
    /// as 1.
    pub fn new(response: Response<S>, turns: u32) -> Pieces<S>
        ensures { result
            ≡ record { response = response; begun = response; turns = max turns 1; waits = 0; given = []; is_over = false } }
    {
        // This call tells the prover that a chunk has a byte, which the invariant of `Pieces` asks.
        let _ = response.body().max_chunk_size();
        Pieces {
            begun: Snapshot::of(&response),
            buffer: Vec::new(response.alloc()),
            response,
            turns: turns.max(1),
            waits: 0,
            stage: Stage::Head,
            given: Trail::new(),
        }
    }

    /// The next piece. After the end, and after an error other than want of memory, there is none.
    pub fn poll_next(&mut self, alloc: Global, gate: Gate) -> Poll<Result<Piece, PieceError>>
        requires { self.old.is_over ≡ false }
        ensures begun { self.new.begun ≡ self.old.begun }
        ensures turns { self.new.turns ≡ self.old.turns }
        ensures read_on { ReadOn S.meaning self.new.begun self.new.response }
        ensures reads { ReadsOnUnder S.meaning gate.tripped self.old.response self.new.response }
        // The source is asked once, with room for a whole chunk.
        ensures by_gate { PieceByGate S.polled gate self.old.response.body.chunk result
            self.old.response.body.content
            self.new.response.body.content }
        ensures piece { IfReadyOk result (λ piece. Gives S.meaning self.old piece self.new) }
        // What was given so far is a front of a list that the response is sent as.
        ensures front { IfReadyOk result (λ _. IsFront S.meaning self.new) }
        // Of a body of bytes each chunk takes as many as it may hold.
        ensures full { IfReadyOk result (TakesFull self.old.response.body) }
        ensures bad_head { (result ≡ Ready (Err PieceError.BadHead))
            ↔ ((self.old.given ≡ []) × (has_head self.old.begun ≡ false)) }
        ensures body_fault { result ≡ Ready (Err PieceError.BodyFault)
            → (self.old.given ≢ []) × GivesUp S.meaning self.old self.new }
        ensures over { IfReadyErr result (λ e. e ≢ PieceError.NoMemory → self.new.is_over ≡ true) }
        ensures stays { IfReadyErr result (λ _. self.new.given ≡ self.old.given) }
        ensures no_memory { result ≡ Ready (Err PieceError.NoMemory) → self.new ≡ self.old }
        ensures pending { result ≡ Pending → (self.old.given ≢ []) × Waits S.meaning self.old self.new }
    {
        match self.stage {
            Stage::Head => Poll::Ready(self.head(alloc)),
            Stage::Body => self.chunk(alloc, gate),
            Stage::Done => unreachable!(),
        }
    }

    /// The response, whose body may have been read.
    pub fn into_response(self) -> Response<S>
        ensures value { result ≡ self.response }
        ensures read_on { ReadOn S.meaning self.begun result }
    {
        self.response
    }

    fn head(&mut self, alloc: Global) -> Result<Piece, PieceError>
        requires going { self.old.is_over ≡ false }
        requires first { self.old.given ≡ [] }
        ensures begun { self.new.begun ≡ self.old.begun }
        ensures turns { self.new.turns ≡ self.old.turns }
        ensures read_on { ReadOn S.meaning self.new.begun self.new.response }
        ensures response { self.new.response ≡ self.old.response }
        ensures answer { Answers S.meaning self.old self.new (Ready result) }
    {
        if !has_head(&self.response) {
            self.stage = Stage::Done;
            return Err(PieceError::BadHead);
        }
        let head = head_of(alloc, &self.response)?;
        self.given.push(&head);
        self.waits = 0;
        self.stage = Stage::Body;
        Ok(head)
    }

    fn chunk(&mut self, alloc: Global, gate: Gate) -> Poll<Result<Piece, PieceError>>
        requires going { self.old.is_over ≡ false }
        requires begun { self.old.given ≢ [] }
        ensures begun { self.new.begun ≡ self.old.begun }
        ensures turns { self.new.turns ≡ self.old.turns }
        ensures read_on { ReadOn S.meaning self.new.begun self.new.response }
        ensures reads { ReadsOnUnder S.meaning gate.tripped self.old.response self.new.response }
        ensures by_gate { PieceByGate S.polled gate self.old.response.body.chunk result
            self.old.response.body.content
            self.new.response.body.content }
        ensures full { IfReadyOk result (TakesFull self.old.response.body) }
        ensures answer { Answers S.meaning self.old self.new result }
    {
        let read = match next_chunk(&mut self.response, alloc, gate, &mut self.buffer) {
            Ok(read) => read,
            Err(_) => return Poll::Ready(Err(PieceError::NoMemory)),
        };
        let waits = self.waits + 1;
        match read {
            ChunkRead::Bytes(bytes) => {
                self.waits = 0;
                give(&mut self.given, Piece::Chunk(bytes))
            }
            ChunkRead::End => {
                self.waits = 0;
                self.stage = Stage::Done;
                give(&mut self.given, Piece::End)
            }
            ChunkRead::Waiting => {
                if waits < self.turns {
                    self.waits = waits;
                    return Poll::Pending;
                }
                self.stage = Stage::Done;
                Poll::Ready(Err(PieceError::BodyFault))
            }
            ChunkRead::Refused(_) => {
                self.stage = Stage::Done;
                Poll::Ready(Err(PieceError::BodyFault))
            }
        }
    }
}
