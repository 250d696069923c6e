// Playing calls on a session.
ghost use Rattle.std.specs.Prelude.{◌≡◌, [], None, IfSome};
ghost use Rattle.session.specs.declared.event.Event.TheVariants.{Open as Opening, Finish as Finishing, Shelve as Shelving};
ghost use Rattle.session.specs.Answers.{told_report};
ghost use Rattle.session.specs.Slips.{Spendable};
ghost use Rattle.session.specs.Steps.{step, seen, fed};
ghost use Rattle.session.specs.View.{view};
ghost use Rattle.calllist.specs.Held.{Holds};
ghost use Rattle.calllist.specs.Shown.{Tells, told, by_slip, unless_held, answer_to};

use crate::answer::*;
use crate::input::Input;
use crate::key::ReadKey;
use crate::line::*;
use crate::stop::*;
use entries::link::*;
use entries::method::Method;
use entries::taker::*;
use session::answer::*;
use session::event::Event;
use session::session::Session;
use session::slip::Slip;

fn of_report(answer: Result<Reported, Refusal>) -> Result<Answer, Rejection>
    ensures { told result ≡ Some (told_report answer) }
{
    Ok(Answer::Reported(answer?))
}

// A session with the slip that its opening handed out.
struct Player<M: Method> {
    session: Session<M>,
    held: Option<Slip>,
    // a slip that is held can be spent from the last accepted time on
    ghost holds: { ∥ Holds (view session.ledger) held ∥₁ },
}

impl<M: Method> Player<M> {
    // An opening; a session whose slip is held is open, and refuses it.
    fn open<F: ChargingFunction>(&mut self, t: u32, function: &mut F) -> Result<Answer, Rejection>
        ensures { Tells result (unless_held self.old.held (step M.Method.column (view self.old.session.ledger) (seen M.Key.LineKey.coding (fed Opening 0 t (F.Taker.room function.old) (F.ChargingFunction.profile function.old)))).answer) }
    {
        if self.held.is_some() {
            return Err(Rejection::Call(Refusal::WrongPhase));
        }
        let (opened, slip) = self.session.open(t, function)?;
        self.held = Some(slip);
        Ok(Answer::Opened(opened))
    }

    // The slip of a refused call is held again here and in shelve: a function for both would have to be told that it can still be spent.
    fn finish<F: Taker>(&mut self, cause: u8, t: u32, taker: &mut F) -> Result<Answer, Rejection>
        ensures { Tells result (by_slip self.old.held (λ s. (step M.Method.column (view self.old.session.ledger) (seen M.Key.LineKey.coding (fed (Finishing cause) s.id t (F.Taker.room taker.old) []))).answer)) }
    {
        let slip = self.held.take().ok_or(Rejection::NoSlip)?;
        match self.session.finish(cause, t, slip, taker) {
            Ok(n) => Ok(Answer::Sent(n)),
            Err((why, slip)) => {
                self.held = Some(slip);
                Err(Rejection::Call(why))
            }
        }
    }

    fn shelve(&mut self, t: u32) -> Result<Answer, Rejection>
        ensures answer { Tells result (by_slip self.old.held (λ s. (step M.Method.column (view self.old.session.ledger) (seen M.Key.LineKey.coding (fed Shelving s.id t 0 []))).answer)) }
        ensures spent { IfSome self.old.held (λ s. Spendable (view self.old.session.ledger) s.id t → self.new.held ≡ None) }
        ensures none { self.old.held ≡ None → self.new.held ≡ None }
    {
        let slip = self.held.take().ok_or(Rejection::NoSlip)?;
        match self.session.shelve(t, slip) {
            Ok(n) => Ok(Answer::Waiting(n)),
            Err((why, slip)) => {
                self.held = Some(slip);
                Err(Rejection::Call(why))
            }
        }
    }

    fn call<F: ChargingFunction>(
        &mut self,
        event: Event<M::Key>,
        t: u32,
        function: &mut F,
    ) -> Result<Answer, Rejection>
        ensures { Tells result (answer_to M.Key.LineKey.coding M.Method.column (view self.old.session.ledger) event self.old.held t (F.Taker.room function.old) (F.ChargingFunction.profile function.old)) }
    {
        match event {
            Event::Open => self.open(t, function),
            Event::Start(key) => of_report(self.session.start(key, t, function)),
            Event::Usage(key, up, down) => of_report(
                self.session.usage(key, up, down, t, function),
            ),
            Event::End(key) => of_report(self.session.end(key, t, function)),
            Event::Change(n) => of_report(self.session.change(n, t, function)),
            Event::Tick => of_report(self.session.tick(t, function)),
            Event::Intervene => of_report(self.session.intervene(t, function)),
            Event::Push => of_report(self.session.push(t, function)),
            Event::Finish(cause) => self.finish(cause, t, function),
            Event::Shelve => self.shelve(t),
        }
    }

    // Plays a line, and prints the answer of its call.
    fn play_line<F: ChargingFunction>(
        &mut self,
        rt: &impl Print,
        text: &str,
        link: &mut Link<F>,
    ) -> Result<(), Stop>
    where
        M::Key: ReadKey,
    {
        let Some(line) = Line::read(text)? else {
            return Ok(());
        };
        match line.name {
            Name::Session => Err(Wrong::SecondSession.into()),
            Name::Book => Err(Wrong::SecondBook.into()),
            Name::Profile => Err(Wrong::ProfileAfterBook.into()),
            Name::Link => {
                link.set_up(line.link_up()?);
                Ok(())
            }
            Name::Call(name) => {
                let timed: Timed<M::Key> = line.call(name)?;
                say(rt, line.word, self.call(timed.event, timed.time, link))
            }
        }
    }

    fn play_lines<F: ChargingFunction>(
        &mut self,
        rt: &impl Print,
        input: &mut Input,
        link: &mut Link<F>,
    ) -> Result<(), Stop>
    where
        M::Key: ReadKey,
    {
        for text in input.by_ref() {
            self.play_line(rt, &text?, link)?;
        }
        Ok(())
    }

    // Spends the slip of a session that is still open: it is shelved at its last accepted time.
    fn put_away(self, rt: &impl Print, played: Result<(), Stop>) -> Result<(), Stop> {
        let Player { mut session, held } = self;
        let Some(slip) = held else {
            return played;
        };
        let last = session.last();
        match session.shelve(last, slip) {
            Ok(n) => {
                played?;
                say(rt, "shelve", Ok(Answer::Waiting(n)))
            }
            Err(_) => unreachable!(),
        }
    }
}

// Plays the lines that are left.
pub(crate) fn play<M: Method, F: ChargingFunction>(
    rt: &impl Print,
    input: &mut Input,
    session: Session<M>,
    link: &mut Link<F>,
) -> Result<(), Stop>
where
    M::Key: ReadKey,
{
    let mut player = Player {
        session,
        held: None,
    };
    let played = player.play_lines(rt, input, link);
    player.put_away(rt, played)
}
