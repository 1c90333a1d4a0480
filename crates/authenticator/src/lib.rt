//! What a sequential authenticator promises: one control event after another, each as the definitions say.
#![tactic(auto)]

mod settings;

ghost use Rattle.std.specs.Prelude.{◌≡◌, ℕ, ◌+◌, ◌<◌, ◌≤◌, true, length, map, IfOk};
ghost use Rattle.switch_event.specs.Config.{is_valid};
ghost use Rattle.switch_event.specs.Event.{happening};
ghost use Rattle.switch_defs.specs.Switch.{State, opening, most_sessions};
ghost use Rattle.switch_defs.specs.Laws.{most_turns};
ghost use Rattle.switch_defs.specs.Turn as model;
ghost use Rattle.table_defs.specs.Table.{Tells};
ghost use Rattle.table_defs.specs.Change.{item_of};
ghost use Rattle.authenticator.specs.Meaning.{IsEvent};

use arrayvec::ArrayVec;
use out_tray::Tray;
pub use settings::copied_config;
use std::alloc::{AllocError, Global};
use switch_event::{Config, Event, Outcome};
use table_defs::Item;

/// An authenticator stands for states of the switch. What it does in a turn is what a turn does to
/// each of them.
pub trait Authenticator {
    ghost stands: { Self → State → Type 0 };

    // how many turns it has made
    ghost made: { Self → ℕ };

    /// The authenticator of these settings, which must be valid, before its first turn. Only this
    /// call takes memory. `AllocError`: there is none.
    fn open(alloc: Global, c: &Config) -> Result<Self, AllocError>
        requires { is_valid c.now ≡ true }
        ensures stands { IfOk result (λ core. stands core (opening c.now)) }
        ensures made { IfOk result (λ core. made core ≡ 0) };

    /// Makes this equal to another authenticator, which was opened with the same settings.
    fn copy_from(&mut self, other: &Self)
        requires { (s t : State) × stands self.old s × stands other.now t × (s.config ≡ t.config) }
        ensures stands { (s : State) → stands other.now s → stands self.new s }
        ensures made { made self.new ≡ made other.now };

    /// Makes one turn (IEEE Std 802.1X-2004, 8.2; RFC 3579; RFC 5176), of fewer than 1,048,576, and
    /// answers what became of the event. The tray, which must have room for 960 sessions, is cleared,
    /// and has what is sent afterwards. The list is cleared, and has what the turn changes for those
    /// that forward frames, in order; it always fits.
    ///
    /// The port of the event is configured, the octets of a frame are those of an EAPOL frame, and
    /// the socket is 0 to 4.
    fn turn(&mut self, e: &Event<'_>, tray: &mut Tray, items: &mut ArrayVec<Item, 1024>) -> Outcome
        requires few { made self.old < most_turns }
        requires event { (s : State) × stands self.old s × IsEvent s.config (happening e.now) }
        requires room { most_sessions ≤ tray.old.sessions }
        ensures made { made self.new ≡ made self.old + 1 }
        ensures state { (s : State) → stands self.old s →
            stands self.new (model.turn s (happening e.now)).state }
        ensures outcome { (s : State) → stands self.old s →
            result ≡ (model.turn s (happening e.now)).outcome }
        ensures sent { (s : State) → stands self.old s →
            tray.new.items ≡ (model.turn s (happening e.now)).sent }
        ensures tray { tray.new.sessions ≡ tray.old.sessions }
        ensures change { (s : State) → stands self.old s →
            Tells s (map item_of items.new.items) (model.turn s (happening e.now)).state };

    /// How many sessions there are, 0 to 960.
    fn sessions(&self) -> usize
        ensures { (s : State) → stands self.now s → result ≡ length s.sessions };
}
