// What the calls answered, in the paper's numbers, each a value. Each tells other fields: a closure for each would be
// longer than its match.
ghost use Rattle.std.specs.Prelude.{◌≡◌, [], ◌∷◌};
ghost use Rattle.end_points.specs.Answers.{answer_of, counted_of, planned_of, what_of, value_of, arrived_of, handed_of};
ghost use Rattle.lines.specs.Lines.{SameBuffer, seen, valued_all};
ghost use Rattle.lines.specs.Sink.{Says, HasRoom, values_text};

use crate::Page;
use crate::sink::Sink;
use end_points::answers::{Arrival, Counts, Plan, Was, what};
use std::io::Write;
use units::refusals::Refusal;

impl Page<'_> {
    // 0, and a number.
    #[tactic(auto, unfolding(crate::specs::Lines::valued_all))]
    pub fn done<W: Write>(&mut self, to: &mut Sink<W>, v: u64)
        ensures lent { SameBuffer self.old self.new }
        ensures after { seen self.new ≡ valued_all (seen self.old) (0 ∷ v ∷ []) }
        ensures written { HasRoom (seen self.old) →
            Says W.contents to.old (seen self.old) to.new (seen self.new) (values_text (0 ∷ v ∷ [])) }
    {
        self.value(to, 0);
        self.value(to, v);
    }

    // Setup, open, close, send, Urgent.
    #[tactic(auto, unfolding(crate::specs::Lines::valued_all))]
    pub fn verdict<W: Write>(&mut self, to: &mut Sink<W>, v: Result<(), Refusal>)
        ensures lent { SameBuffer self.old self.new }
        ensures after { seen self.new ≡ valued_all (seen self.old) (answer_of v) }
        ensures written { HasRoom (seen self.old) →
            Says W.contents to.old (seen self.old) to.new (seen self.new) (values_text (answer_of v)) }
    {
        match v {
            Ok(()) => self.value(to, 0),
            Err(why) => self.refused(to, why),
        }
    }

    // Counts: accepted and confirmed.
    #[tactic(auto, unfolding(crate::specs::Lines::valued_all))]
    pub fn counted<W: Write>(&mut self, to: &mut Sink<W>, c: Result<Counts, Refusal>)
        ensures lent { SameBuffer self.old self.new }
        ensures after { seen self.new ≡ valued_all (seen self.old) (counted_of c) }
        ensures written { HasRoom (seen self.old) →
            Says W.contents to.old (seen self.old) to.new (seen self.new) (values_text (counted_of c)) }
    {
        match c {
            Ok(counts) => {
                self.done(to, counts.accepted.0 as u64);
                self.value(to, counts.confirmed.0 as u64);
            }
            Err(why) => self.refused(to, why),
        }
    }

    // A plan: how many payloads were accepted, and what refused the next.
    #[tactic(auto, unfolding(crate::specs::Lines::valued_all))]
    pub fn planned<W: Write>(&mut self, to: &mut Sink<W>, p: Result<Plan, Refusal>)
        ensures lent { SameBuffer self.old self.new }
        ensures after { seen self.new ≡ valued_all (seen self.old) (planned_of p) }
        ensures written { HasRoom (seen self.old) →
            Says W.contents to.old (seen self.old) to.new (seen self.new) (values_text (planned_of p)) }
    {
        match p {
            Ok(plan) => {
                self.done(to, plan.accepted as u64);
                self.verdict(to, plan.stop);
            }
            Err(why) => self.refused(to, why),
        }
    }

    // Handing out: the frame's length.
    #[tactic(auto, unfolding(crate::specs::Lines::valued_all))]
    pub fn handed<W: Write>(&mut self, to: &mut Sink<W>, h: Result<usize, Refusal>)
        ensures lent { SameBuffer self.old self.new }
        ensures after { seen self.new ≡ valued_all (seen self.old) (handed_of h) }
        ensures written { HasRoom (seen self.old) →
            Says W.contents to.old (seen self.old) to.new (seen self.new) (values_text (handed_of h)) }
    {
        match h {
            Ok(n) => self.done(to, n as u64),
            Err(why) => self.refused(to, why),
        }
    }

    // What came with a frame that was taken in, where something did.
    #[tactic(auto, unfolding(crate::specs::Lines::valued_all))]
    fn came_with<W: Write>(&mut self, to: &mut Sink<W>, was: Was)
        ensures lent { SameBuffer self.old self.new }
        ensures after { seen self.new ≡ valued_all (seen self.old) (value_of was) }
        ensures written { HasRoom (seen self.old) →
            Says W.contents to.old (seen self.old) to.new (seen self.new) (values_text (value_of was)) }
    {
        match was {
            Was::Ignored => {}
            Was::Acknowledged(passed) => self.value(to, passed as u64),
            Was::Opened => {}
            Was::Reset(held) => self.value(to, held as u64),
            Was::Data(n) => self.value(to, n as u64),
            Was::Urgent(n) => self.value(to, n as u64),
        }
    }

    // An arrival: what the frame was, the entry that it was for, and what came with it.
    #[tactic(auto, unfolding(crate::specs::Lines::valued_all))]
    pub fn arrived<W: Write>(&mut self, to: &mut Sink<W>, a: Result<Arrival, Refusal>)
        ensures lent { SameBuffer self.old self.new }
        ensures after { seen self.new ≡ valued_all (seen self.old) (arrived_of a) }
        ensures written { HasRoom (seen self.old) →
            Says W.contents to.old (seen self.old) to.new (seen self.new) (values_text (arrived_of a)) }
    {
        match a {
            Ok(arrival) => {
                self.done(to, what(arrival.was) as u64);
                self.value(to, arrival.entry as u64);
                self.came_with(to, arrival.was);
            }
            Err(why) => self.refused(to, why),
        }
    }
}
