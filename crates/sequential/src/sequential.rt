// The authenticator on one thread.
ghost use Rattle.std.specs.Prelude.{◌≡◌, true, length, IfOk};
ghost use Rattle.switch_event.specs.Config.{is_valid};
ghost use Rattle.history_defs.specs.Output.{Place, first_place};
ghost use Rattle.sequential.specs.Records.{Stands};

use arrayvec::ArrayVec;
use auth_table::{Table, opening};
use authenticator::Authenticator;
use out_tray::Tray;
use std::alloc::{AllocError, Global};
use switch_event::Config;
use table_defs::Item;

// How many sessions there may be: 16 on each of 60 ports.
const SESSIONS: usize = 960;

/// The authenticator on one thread, between two records.
#[derive(Drop)]
pub struct Sequential<A> {
    /// The authenticator.
    pub(crate) core: A,
    /// The table by which data frames are decided, in step with it.
    pub(crate) table: Table,
    /// What its last turn sent.
    pub(crate) tray: Tray,
    /// What its last turn changed in the table.
    pub(crate) items: Box<ArrayVec<Item, 1024>>,
    /// The number of the next record, from 1.
    pub(crate) number: u64,
    /// The number of control records before it.
    pub(crate) serial: u64,
}

impl<A: Authenticator + Drop> Sequential<A> {
    /// The authenticator of these settings, which must be valid, before the first record.
    /// `AllocError`: there is no memory.
    pub fn open(alloc: Global, config: &Config) -> Result<Sequential<A>, AllocError>
        requires { is_valid config.now ≡ true }
        ensures { IfOk result (λ s. Stands A.stands A.made s (first_place config.now)) }
    {
        Ok(Sequential {
            core: A::open(alloc, config)?,
            table: opening(config),
            tray: Tray::open(alloc, SESSIONS)?,
            items: Box::new(alloc, ArrayVec::new())?,
            number: 1,
            serial: 0,
        })
    }

    /// What the last control record sent, in order; nothing before the first.
    pub fn tray(&self) -> &Tray
        ensures { result.now ≡ self.now.tray }
    {
        &self.tray
    }

    /// The number of the next record, from 1.
    pub fn number(&self) -> u64
        ensures { (at : Place) → Stands A.stands A.made self.now at → result ≡ at.number }
    {
        self.number
    }

    /// The serial number of the next control record, from 0: how many were run.
    pub fn serial(&self) -> u64
        ensures { (at : Place) → Stands A.stands A.made self.now at → result ≡ at.serial }
    {
        self.serial
    }

    /// How many sessions there are, 0 to 960.
    pub fn sessions(&self) -> usize
        ensures { (at : Place) → Stands A.stands A.made self.now at
            → result ≡ length at.state.sessions }
    {
        self.core.sessions()
    }
}
