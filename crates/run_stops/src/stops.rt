//! The trait, and its value that holds nothing.

ghost use Rattle.run_stops.specs.Stopping.{HasAnswered};

use access_vectors::Decider;
use epoch_gate::Seat;
use gate_rule::Journal;

/// Where a test may hold a worker of a threaded run: before each of its lines, and once the line has answered. The calls
/// have no answer.
pub trait Stops {
    /// Called by a worker before each of its lines; `client` is 255 for the administrator.
    fn before<R>(&self, rt: &R, client: u8, line: u32);

    /// Called once a client's call has answered, and a pass that its line took for itself is given back. The seat is the
    /// client's, and the last of its own entries is that call.
    fn after<R, V: Journal<D>, D: Decider>(&self, rt: &R, client: u8, line: u32, seat: &Seat<V, D>)
        requires { HasAnswered V.means.kind client line seat.now };

    /// Called once any other line has answered.
    fn past<R>(&self, rt: &R, client: u8, line: u32);
}

/// Holds nothing.
#[derive(Clone, Copy, Debug)]
pub struct NoStops;

impl Stops for NoStops {
    fn before<R>(&self, _rt: &R, _client: u8, _line: u32) {}

    fn after<R, V: Journal<D>, D: Decider>(
        &self,
        _rt: &R,
        _client: u8,
        _line: u32,
        _seat: &Seat<V, D>,
    ) {}

    fn past<R>(&self, _rt: &R, _client: u8, _line: u32) {}
}
