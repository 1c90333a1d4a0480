//! What is locked.
use event_record::MOST_EVENTS;
use out_tray::Tray;
use std::sync::Wait;
use switch_event::Event;

/// A book that control events are offered to. It is a fixed value and a list of the accepted
/// entries, of which there are at most `MOST_EVENTS`.
pub trait Booked {
    ghost use Rattle.std.specs.Prelude.{◌≡◌, ◌≤◌, ◌∷◌, ◌++◌, [], List, ℕ, length, IfOk, IfErr};
    ghost use Rattle.event_record.specs.Entry.{Entry, entry_of};
    ghost use Rattle.switch_event.specs.Sent.{Sent};

    /// What never changes, as plain data. No value of it is made.
    type Fixed;

    /// What an accepted event is answered.
    type Answer;

    /// Why an event is refused.
    type Refusal;

    ghost fixed: { Self → Self.Fixed };

    // The accepted entries.
    ghost list: { Self → List Entry };

    // Which entries may be offered, and for how many sessions the tray then is.
    ghost admits: { Self.Fixed → Entry → (sessions : ℕ) → Type 0 };

    // Which answer belongs to an entry after a list.
    ghost answers: { Self.Fixed → List Entry → Entry → Self.Answer → Type 0 };

    // What an entry after a list sends.
    ghost sends: { Self.Fixed → List Entry → Entry → List Sent };

    // Which refusals may come at which length of the list.
    ghost refuses: { Self.Fixed → ℕ → Self.Refusal → Type 0 };

    /// Offers an event that came on a lane. Where it is accepted the list gets its entry, and the
    /// tray has what the entry sends. Where it is refused the list is as before, and the tray is
    /// cleared.
    fn control<R: Wait>(
        &mut self,
        rt: &R,
        lane: u8,
        e: &Event<'_>,
        tray: &mut Tray,
    ) -> Result<Self::Answer, Self::Refusal>
        requires { admits (fixed self.old) (entry_of lane e.now) tray.old.sessions }
        ensures same { fixed self.new ≡ fixed self.old }
        ensures short { length (list self.new) ≤ MOST_EVENTS }
        ensures tray { tray.new.sessions ≡ tray.old.sessions }
        ensures accepted { IfOk result (λ a.
            list self.new ≡ list self.old ++ entry_of lane e.now ∷ []) }
        ensures answer { IfOk result (λ a.
            answers (fixed self.old) (list self.old) (entry_of lane e.now) a) }
        ensures sent { IfOk result (λ a.
            tray.new.items ≡ sends (fixed self.old) (list self.old) (entry_of lane e.now)) }
        ensures refused { IfErr result (λ r. (list self.new ≡ list self.old)
            × (tray.new.items ≡ [])) }
        ensures cause { IfErr result (λ r. refuses (fixed self.old) (length (list self.old)) r) };
}
