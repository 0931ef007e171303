//! Applies an event to the world's scene. A refused event changes nothing.
use crate::event_fault::EventFault;
use crate::scene::Scene;
use schedule::Event;

impl Scene {
    ghost use Rattle.std.specs.Prelude.{◌≡◌, Some};
    ghost use Rattle.schedule.specs.Phase.{worker_of as worker_in};
    ghost use Rattle.schedule_core.specs.Scene.{Answers, GoesOn, IsSound};

    /// Makes an event happen.
    pub(crate) fn apply(&mut self, event: Event) -> Result<(), EventFault>
        requires { IsSound self.old }
        ensures { Answers self.old event self.new result }
    {
        if self.outcome.is_some() {
            return Err(EventFault::Ended);
        }
        match event {
            Event::Draw(worker)
            | Event::Step(worker)
            | Event::Note(worker)
            | Event::Skip(worker)
            | Event::Post(worker) => self.work(worker, event),
            Event::Hold => self.hold(),
            Event::Turn => self.turn(),
        }
    }

    /// Makes an event of a worker happen, while the run goes on.
    fn work(&mut self, worker: u32, event: Event) -> Result<(), EventFault>
        requires run { GoesOn self.old }
        requires its { worker_in event ≡ Some worker }
        ensures { Answers self.old event self.new result }
    {
        if worker as usize >= self.seats.len() {
            return Err(EventFault::NoWorker);
        }
        if !self.allows(worker, event) {
            return Err(EventFault::NotEnabled);
        }
        match event {
            Event::Draw(_) => {
                self.draw(worker)?;
                Ok(())
            }
            Event::Step(_) => {
                self.step(worker)?;
                Ok(())
            }
            Event::Note(_) => {
                self.note(worker);
                Ok(())
            }
            Event::Skip(_) => {
                self.skip(worker);
                Ok(())
            }
            Event::Post(_) => {
                self.post(worker)?;
                Ok(())
            }
            Event::Hold | Event::Turn => Ok(()),
        }
    }
}
