// The kinds of record: those of a trace, and two more.
use lines::Stop;
use trace::kinds;

// The number of a plan, and that of a sender's counts.
pub const PLAN: u8 = 10;

pub const COUNTS: u8 = 20;

#[derive(Clone, Copy)]
pub enum Kind {
    // One of a trace's, by its number, as `trace_step::call` takes it.
    Traced(u8),
    // A trace has the sends that a plan is made of in its place.
    Plan,
    // Counts alter nothing and so stand in no trace.
    Counts,
}

// The kind that a number stands for.
impl TryFrom<u8> for Kind {
    type Error = Stop;

    fn try_from(number: u8) -> Result<Kind, Stop> {
        match number {
            PLAN => Ok(Kind::Plan),
            COUNTS => Ok(Kind::Counts),
            _ if kinds::is_kind(number) => Ok(Kind::Traced(number)),
            _ => Err(Stop::Unknown),
        }
    }
}
