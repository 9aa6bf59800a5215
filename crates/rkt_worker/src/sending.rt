//! How a response is sent.
ghost use Rattle.std.specs.Prelude.{◌≡◌, ◌≢◌, ◌↔◌, ℕ, Err, List, [], IfOk, IsTrue, true, false, max};
ghost use Rattle.rkt_base.specs.declared.poll.Poll.{Poll};
ghost use Rattle.rkt_source.specs.Cancel.{is_gone};
ghost use Rattle.rkt_source.specs.declared.stage.Stage.{Stage};
ghost use Rattle.rkt_message.specs.Reading.{ReadsOn};
ghost use Rattle.rkt_message.specs.Sending.{ReadOn};
ghost use Rattle.rkt_message.specs.Sent.{has_head};
ghost use Rattle.rkt_message.specs.declared.piece.Piece.{Piece};
ghost use Rattle.rkt_message.specs.declared.piece.PieceError.{PieceError};
ghost use Rattle.rkt_link.specs.Link.{AfterHand, ComesBack};
ghost use Rattle.rkt_link.specs.declared.link.Delivery.{Delivery};
ghost use Rattle.rkt_board.specs.declared.history.End.TheVariants.{Cut};
ghost use Rattle.rkt_worker.specs.Gates.{IsCutOff, MayStand, word_in};
ghost use Rattle.rkt_worker.specs.Handing.{HandsOver, PutAs, ShutsAs};
ghost use Rattle.rkt_worker.specs.Progress.{Advances};
ghost use Rattle.rkt_worker.specs.Sent.{BodyFails, IsSentAs, LeftBy};

use crate::Gates;
use rkt_base::Poll;
use rkt_board::{End, Failure};
use rkt_data::{CancellableIo, Gate, Refused, Source};
use rkt_link::{Delivery, Link, SendError};
use rkt_message::{Piece, PieceError, Pieces, Response};
use std::alloc::Global;
use std::sync::Wait;

// Hands a piece to a link, which answers at once.
fn hand<K: Link>(link: &mut K, piece: Piece) -> Poll<Delivery>
    ensures { (handed : Delivery)
        × (result ≡ Poll.Ready handed)
        × AfterHand handed (K.meaning link.old) piece (K.meaning link.new)
        × ComesBack handed piece }
{
    Poll::Ready(link.poll_hand(piece))
}

// Hands a piece over, unless the grace of a trip is over. A piece that is not handed over is let go, since nothing is sent any
// more from then on.
fn hand_over<K: Link>(
    io: &mut CancellableIo<K>,
    gate: Gate,
    piece: Piece,
) -> Poll<Result<Delivery, Refused>>
    ensures { HandsOver K.meaning gate io.old piece io.new result }
{
    io.poll_with(gate, |link| hand(link, piece))
}

// Polls a link that is past its grace, and is sent nothing.
fn shut<K: Link>(io: &mut CancellableIo<K>, gate: Gate) -> Poll<Result<(), Refused>>
    ensures { (saw : ℕ) → (cut : ℕ) → io.old.stage ≡ Stage.Mercy saw cut → ShutsAs K.meaning saw cut io.old io.new result }
{
    io.poll_with(gate, |_| Poll::<()>::Pending)
}

// How a response ends whose link is gone.
fn cut_off<K: Link>(io: &CancellableIo<K>) -> End
    requires gone { is_gone io.now.stage ≡ true }
    ensures { (saw : ℕ) → (cut : ℕ) → io.now.stage ≡ Stage.Gone saw cut → result ≡ Cut saw cut }
{
    match (io.saw(), io.cut_at()) {
        (Some(saw), Some(cut)) => End::Cut { saw, cut },
        _ => unreachable!(),
    }
}

// Polls a link that is past its grace until it is gone.
fn shut_down<R: Wait, G: Gates, K: Link>(rt: &R, gates: &mut G, io: &mut CancellableIo<K>) -> End
    requires keeps { G.keeps gates.old }
    requires past { (saw : ℕ) × (cut : ℕ) × (io.old.stage ≡ Stage.Mercy saw cut) }
    ensures keeps { G.keeps gates.new }
    ensures leads { G.leads gates.old gates.new }
    ensures ended { (saw : ℕ) → (cut : ℕ)
        → io.old.stage ≡ Stage.Mercy saw cut
        → (result ≡ Cut saw cut) × (io.new.stage ≡ Stage.Gone saw cut) × (K.meaning io.new.io ≡ K.meaning io.old.io) }
{
    for _ in rt.forever() {
        let gate = gates.next_gate();
        match shut(io, gate) {
            Poll::Pending => {}
            Poll::Ready(_) => return cut_off(io),
        }
    }
    unreachable!()
}

// Hands one piece over, and waits until it is taken. Where it is not, the response has ended.
fn put<R: Wait, G: Gates, K: Link>(
    rt: &R,
    gates: &mut G,
    io: &mut CancellableIo<K>,
    mut piece: Piece,
) -> Option<End>
    requires keeps { G.keeps gates.old }
    requires stands { MayStand (G.watched gates.old) io.old.stage }
    ensures keeps { G.keeps gates.new }
    ensures leads { G.leads gates.old gates.new }
    ensures put { PutAs K.meaning (G.watched gates.new) io.old piece io.new result }
    ensures asked { (K.meaning io.new.io).asked ≡ (K.meaning io.old.io).asked }
{
    for _ in rt.forever() {
        let gate = gates.next_gate();
        match hand_over(io, gate, piece) {
            Poll::Ready(Ok(Delivery::Back(back))) => piece = back,
            Poll::Ready(Ok(Delivery::Taken)) => return None,
            Poll::Ready(Ok(Delivery::Refused(SendError::Fault))) => return Some(End::Lost),
            Poll::Ready(Ok(Delivery::Refused(SendError::NoMemory))) => return Some(End::Starved),
            Poll::Ready(Err(_)) => return Some(cut_off(io)),
            Poll::Pending => return Some(shut_down(rt, gates, io)),
        }
    }
    unreachable!()
}

fn is_end(piece: &Piece) -> bool
    ensures { IsTrue result ↔ (piece.now ≡ Piece.End) }
{
    matches!(piece, Piece::End)
}

// The next piece, polled until it is there.
fn next_piece<R: Wait, G: Gates, S: Source>(
    rt: &R,
    alloc: Global,
    gates: &mut G,
    pieces: &mut Pieces<S>,
) -> Result<Piece, PieceError>
    requires keeps { G.keeps gates.old }
    requires going { pieces.old.is_over ≡ false }
    requires read_on { pieces.old.given ≢ [] → ReadOn S.meaning pieces.old.begun pieces.old.response }
    ensures keeps { G.keeps gates.new }
    ensures leads { G.leads gates.old gates.new }
    ensures begun { pieces.new.begun ≡ pieces.old.begun }
    ensures turns { pieces.new.turns ≡ pieces.old.turns }
    ensures read_on { ReadOn S.meaning pieces.new.begun pieces.new.response }
    ensures reads { ReadsOn S.meaning
        (word_in (G.watched gates.new).trip) pieces.old.response.body.content pieces.new.response.body.content }
    ensures piece { IfOk result (λ piece. Advances S.meaning pieces.old piece pieces.new) }
    ensures bad_head { result ≡ Err PieceError.BadHead → (pieces.old.given ≡ []) × (has_head pieces.old.begun ≡ false) }
    ensures body_fault { result ≡ Err PieceError.BodyFault
        → (pieces.old.given ≢ []) × BodyFails S.meaning pieces.old.turns pieces.old.begun pieces.new.response }
{
    for _ in rt.forever() {
        let gate = gates.next_gate();
        match pieces.poll_next(alloc, gate) {
            Poll::Ready(answer) => return answer,
            Poll::Pending => {}
        }
    }
    unreachable!()
}

// Sends all pieces of a response.
fn put_all<R: Wait, G: Gates, K: Link, S: Source>(
    rt: &R,
    alloc: Global,
    gates: &mut G,
    io: &mut CancellableIo<K>,
    pieces: &mut Pieces<S>,
) -> End
    requires keeps { G.keeps gates.old }
    requires stands { MayStand (G.watched gates.old) io.old.stage }
    requires going { pieces.old.is_over ≡ false }
    requires first { pieces.old.given ≡ [] }
    ensures keeps { G.keeps gates.new }
    ensures leads { G.leads gates.old gates.new }
    ensures begun { pieces.new.begun ≡ pieces.old.begun }
    ensures reads { ReadsOn S.meaning
        (word_in (G.watched gates.new).trip) pieces.old.response.body.content pieces.new.response.body.content }
    ensures ended { (taken : List Piece)
        × IsSentAs S.meaning pieces.old.turns pieces.old.begun pieces.new.response result taken
        × LeftBy result (K.meaning io.old.io) taken (K.meaning io.new.io) }
    ensures cut { IsCutOff (G.watched gates.new) io.new.stage result }
    ensures asked { (K.meaning io.new.io).asked ≡ (K.meaning io.old.io).asked }
{
    for _ in rt.forever() {
        let piece = match next_piece(rt, alloc, gates, pieces) {
            Ok(piece) => piece,
            Err(PieceError::BadHead) => return End::Failed(Failure::BadHead),
            Err(PieceError::BodyFault) => return End::Failed(Failure::BodyFault),
            Err(PieceError::NoMemory) => return End::Starved,
        };
        let last = is_end(&piece);
        if let Some(ended) = put(rt, gates, io, piece) {
            return ended;
        }
        if last {
            return End::Answered;
        }
    }
    unreachable!()
}

/// Sends a response over a link that nothing was sent through, and answers how that ended. Each poll of the source of its body
/// and of the link has a Gate of its own; that source fails where it is Pending `turns` times in a row, and the link is cut
/// off once the grace of a trip is over that was seen meanwhile.
pub fn send<R: Wait, G: Gates, K: Link, S: Source>(
    rt: &R,
    alloc: Global,
    gates: &mut G,
    io: &mut CancellableIo<K>,
    response: Response<S>,
    turns: u32,
) -> (Response<S>, End)
    requires keeps { G.keeps gates.old }
    requires active { io.old.stage ≡ Stage.Active }
    ensures keeps { G.keeps gates.new }
    ensures leads { G.leads gates.old gates.new }
    ensures read_on { ReadOn S.meaning response result.0 }
    ensures reads { ReadsOn S.meaning (word_in (G.watched gates.new).trip) response.body.content result.0.body.content }
    ensures ended { (taken : List Piece)
        × IsSentAs S.meaning (max turns 1) response result.0 result.1 taken
        × LeftBy result.1 (K.meaning io.old.io) taken (K.meaning io.new.io) }
    ensures cut { IsCutOff (G.watched gates.new) io.new.stage result.1 }
    ensures asked { (K.meaning io.new.io).asked ≡ (K.meaning io.old.io).asked }
{
    let mut pieces = Pieces::new(response, turns);
    let ended = put_all(rt, alloc, gates, io, &mut pieces);
    (pieces.into_response(), ended)
}
