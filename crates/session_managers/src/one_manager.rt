//! The three managers of a session as one type.

ghost use Rattle.std.specs.Prelude.{◌≡◌, ◌<◌};
ghost use Rattle.session_managers.specs.One;

use crate::acting::{Act, Call, ClientAct};
use access_vectors::{Decider, Phase};
use file_manager::FileCore;
use flask_sid::Memory;
use managed::{Managed, Plain, Serves};
use manager_history::{Ack, NotifyFault};
use port_manager::PortCore;
use process_manager::ProcessCore;
use retained_rights::{AllBits, EachBits};
use std::alloc::Global;
use std::sync::Wait;

/// One of the managers of a session on one thread.
#[derive(Drop)]
pub enum OneManager<'d, D: Decider> {
    File(Plain<'d, FileCore<EachBits>, D>),
    Process(Plain<'d, ProcessCore<AllBits>, D>),
    Port(Plain<'d, PortCore<AllBits>, D>),
}

impl<'d, D: Decider> OneManager<'d, D> {
    /// Where the manager's change of policy stands.
    #[inline(always)]
    pub fn phase(&self) -> Phase
        ensures { result ≡ One.phase (One.place_of self.now) }
    {
        match self {
            OneManager::File(files) => files.phase(),
            OneManager::Process(processes) => processes.phase(),
            OneManager::Port(ports) => ports.phase(),
        }
    }

    /// The policy number under which a client acts.
    #[inline(always)]
    pub fn acting(&self, client: u8) -> u32
        requires { client < 64 }
        ensures { result ≡ One.acting (One.place_of self.now) client }
    {
        match self {
            OneManager::File(files) => files.acting(client),
            OneManager::Process(processes) => processes.acting(client),
            OneManager::Port(ports) => ports.acting(client),
        }
    }
}

impl<'d, D: Decider> Managed for OneManager<'d, D> {
    ghost use Rattle.session_managers.specs.One.{seen, IsSame, same_reflexive, same_transitive};

    ghost seen = { seen D.decides };

    ghost same = { IsSame };

    fn notify<R: Wait>(&mut self, rt: &R, alloc: Global, ver: u8) -> Result<u32, NotifyFault> {
        match self {
            OneManager::File(files) => Managed::notify(files, rt, alloc, ver),
            OneManager::Process(processes) => Managed::notify(processes, rt, alloc, ver),
            OneManager::Port(ports) => Managed::notify(ports, rt, alloc, ver),
        }
    }

    fn update<R: Wait>(&mut self, rt: &R, k: u64) -> u64 {
        match self {
            OneManager::File(files) => Managed::update(files, rt, k),
            OneManager::Process(processes) => Managed::update(processes, rt, k),
            OneManager::Port(ports) => Managed::update(ports, rt, k),
        }
    }

    fn acknowledge<R: Wait>(&mut self, rt: &R) -> Ack {
        match self {
            OneManager::File(files) => Managed::acknowledge(files, rt),
            OneManager::Process(processes) => Managed::acknowledge(processes, rt),
            OneManager::Port(ports) => Managed::acknowledge(ports, rt),
        }
    }

    fn force<R: Wait>(&mut self, rt: &R) -> Ack {
        match self {
            OneManager::File(files) => Managed::force(files, rt),
            OneManager::Process(processes) => Managed::force(processes, rt),
            OneManager::Port(ports) => Managed::force(ports, rt),
        }
    }

    ghost reflexive = { same_reflexive };

    ghost transitive = { same_transitive };
}

impl<'d, D: Decider> Serves for OneManager<'d, D> {
    ghost use Rattle.session_managers.specs.One.{May, Does};

    type Act = ClientAct;

    type Outcome = Result<(), Memory>;

    ghost may = { May D.decides };

    ghost does = { Does D.decides };

    /// Does what a client does at this manager, of which its call is. What a call got is read where it lies in the history, so the
    /// copy for a caller is dropped.
    #[inline(always)]
    fn serve(&mut self, alloc: Global, act: ClientAct) -> Result<(), Memory> {
        let ClientAct { client, act } = act;
        match act {
            Act::Call { mark, call } => match (self, call) {
                (OneManager::File(files), Call::File(call)) => {
                    let _got = files.call(alloc, client, mark, call)?;
                }
                (OneManager::Process(processes), Call::Process(call)) => {
                    let _got = processes.call(alloc, client, mark, call)?;
                }
                (OneManager::Port(ports), Call::Port(call)) => {
                    let _got = ports.call(alloc, client, mark, call)?;
                }
                _ => unreachable!(),
            },
            Act::Begin => match self {
                OneManager::File(files) => files.begin(client),
                OneManager::Process(processes) => processes.begin(client),
                OneManager::Port(ports) => ports.begin(client),
            },
            Act::End => match self {
                OneManager::File(files) => files.end(client),
                OneManager::Process(processes) => processes.end(client),
                OneManager::Port(ports) => ports.end(client),
            },
        }
        Ok(())
    }
}
