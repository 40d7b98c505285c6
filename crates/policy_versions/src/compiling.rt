//! A policy compiled, or why it is not.

ghost use Rattle.std.specs.Prelude.{◌≡◌, None};
ghost use Rattle.policy_versions.specs.declared.compiling.CompileFault.TheVariants as compile_fault;
ghost use Rattle.policy_versions.specs.Given.{AreGivenOf};
ghost use Rattle.policy_versions.specs.Vectors.{AreVectorsOf};
ghost use Rattle.policy_versions.specs.Identifiers.{AreNumbered};
ghost use Rattle.policy_versions.specs.Nevers.{first_break as first_broken};
ghost use Rattle.policy_versions.specs.Compiling.{IsAnswer, IsCatalogueOf};

use crate::broken::Break;
use crate::catalogue::Catalogue;
use crate::contexts::Contexts;
use crate::fill::FillFault;
use crate::given::GivenRows;
use crate::kinds::Kinds;
use crate::nevers::first_break;
use crate::vectors::VectorRows;
use access_vectors::Perm;
use flask_sid::Memory;
use policy_model::PolicyText;
use std::alloc::Global;

/// Why a policy is not compiled.
#[derive(Clone, Copy, Debug, PartialEq, Eq)]
pub enum CompileFault {
    /// It leads to more than 4,095 contexts.
    TooManyContexts,
    /// A version, counted from 0, allows what the `neverallow` line of that number forbids: for the declared types at the
    /// places `s` and `t`, counted from 0, and a permission.
    Neverallow {
        version: u8,
        line: u32,
        s: u8,
        t: u8,
        perm: Perm,
    },
    Memory,
}

impl From<Memory> for CompileFault {
    ghost use Rattle.std.specs.Prelude.{◌≡◌};
    ghost use Rattle.policy_versions.specs.declared.compiling.CompileFault.TheVariants as compile_fault;

    ghost from_gives = { λ _ fault. fault ≡ compile_fault.Memory };

    fn from(_: Memory) -> Self {
        CompileFault::Memory
    }
}

/// The catalogue of a policy. `TooManyContexts` exactly where the policy leads to more than 4,095 contexts; `Neverallow`
/// exactly where these fit and a version breaks a `neverallow` line, which is the first by version, line, source, target and
/// permission.
pub fn compile(alloc: Global, policy: &PolicyText) -> Result<Catalogue, CompileFault>
    ensures { IsAnswer policy.now result }
{
    let kinds = Kinds::of(alloc, policy)?;
    let given = GivenRows::compile(alloc, policy, &kinds)?;
    let contexts = match Contexts::of(alloc, policy, &kinds, &given) {
        Ok(contexts) => contexts,
        Err(FillFault::TooMany) => return Err(CompileFault::TooManyContexts),
        Err(FillFault::Memory) => return Err(CompileFault::Memory),
    };
    let vectors = VectorRows::compile(alloc, policy, &kinds)?;
    match first_break(policy, &kinds, &vectors) {
        Some(found) => Err(fault_of(&found)),
        None => Ok(catalogue(policy, contexts, vectors, given)),
    }
}

fn fault_of(found: &Break) -> CompileFault
    ensures { result ≡ compile_fault.Neverallow found.now.version found.now.line found.now.s found.now.t found.now.perm }
{
    CompileFault::Neverallow {
        version: found.version,
        line: found.line,
        s: found.s.place(),
        t: found.t.place(),
        perm: found.perm,
    }
}

/// The catalogue of a policy whose tables these are.
fn catalogue(
    policy: &PolicyText,
    contexts: Contexts,
    vectors: VectorRows,
    given: GivenRows,
) -> Catalogue
    requires given { AreGivenOf policy.now given }
    requires vectors { AreVectorsOf policy.now vectors }
    requires breaks { first_broken policy.now ≡ None }
    requires contexts { AreNumbered policy.now contexts.users contexts.places.items contexts.sids contexts.cells.items }
    ensures { IsCatalogueOf policy.now result }
{
    let versions = policy.parts().versions.len() as u16;
    Catalogue {
        versions,
        contexts,
        vectors,
        given,
    }
}
