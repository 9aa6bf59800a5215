//! Each type that crosses threads does so whatever the state or the reason is, as long as that does.
use rkt_turn::{Booked, Pass, Reason, Shutdown, TripWire, Turn, Turnstile};

fn sends<T: Send>(_value: &T) {}

fn shares<T: Sync>(_value: &T) {}

pub fn lock_crosses<S: Booked + Send>(lock: &Turnstile<S>, pass: &Pass<S>, turn: &Turn<S>) {
    sends(lock);
    shares(lock);
    sends(pass);
    sends(turn);
}

pub fn wire_crosses<R: Reason + Send>(wire: &TripWire<R>, handle: &Shutdown<R>) {
    sends(wire);
    shares(wire);
    sends(handle);
}
