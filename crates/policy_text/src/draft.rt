//! A policy as far as its text is read, with what it declares by an index.

ghost use Rattle.std.specs.Prelude.{◌≡◌, ◌∷◌, ◌++◌, [], true, false, nat_le, length, IsTrue, OnOk, IfOk};
ghost use Rattle.std.specs.List.{list_all};
ghost use Rattle.policy_model.specs.Declarations;
ghost use Rattle.policy_model.specs.declared.policy.WhoOf.TheVariants.{Named};
ghost use Rattle.policy_text.specs.Above;
ghost use Rattle.policy_text.specs.Grammar;
ghost use Rattle.policy_text.specs.Plain.{IsPlain};

use crate::contexts::ContextIndex;
use crate::form::Listing;
use crate::plain::PlainNames;
use flask_sid::{ContextOf, Memory, Name, Rows, Word, kept};
use policy_model::{
    AttributeLine, ContextLine, KindLine, Pattern, PolicyParts, RuleLine, Version, WhoOf,
};
use std::alloc::Global;
use std::marker::Model;
use std::mem::replace;
use text_lines::{WordIndex, Words};

pub const CONTEXT_LIMIT: usize = 4_095;

pub const KIND_LIMIT: usize = 128;

pub const ATTRIBUTE_LIMIT: usize = 64;

pub const LISTED_LIMIT: usize = 1_024;

pub const VERSION_LIMIT: usize = 64;

pub const RULE_LIMIT: usize = 1_024;

/// What the lines above say. Its indexes have the names of types and of attributes, and the contexts, and its plain names are
/// found without them. Contracts see the policy alone.
#[derive(Drop)]
pub(crate) struct Draft<'a> {
    policy: PolicyParts,
    kinds: WordIndex<'a>,
    attributes: WordIndex<'a>,
    contexts: ContextIndex<'a>,
    plain: PlainNames<'a>,
}

impl<'a> Model for Draft<'a> {
    ghost use Rattle.policy_model.specs.declared.policy.PolicyParts.{PolicyParts};
    ghost use Rattle.policy_text.specs.Indexed.{IsIndexed};

    ghost Value = { PolicyParts };

    ghost view = { λ draft. draft.policy };

    ghost invariant = { λ draft. IsIndexed draft.policy draft.kinds draft.attributes draft.contexts draft.plain };
}

impl<'a> Draft<'a> {
    /// Below `policy 1`.
    pub(crate) fn new(alloc: Global) -> Draft<'a>
        ensures { result ≡ Grammar.no_parts }
    {
        Draft {
            policy: no_parts(alloc),
            kinds: WordIndex::new(alloc),
            attributes: WordIndex::new(alloc),
            contexts: ContextIndex::new(alloc),
            plain: PlainNames::new(alloc),
        }
    }

    /// The policy, and its contexts by their index.
    pub(crate) fn finish(self) -> (PolicyParts, ContextIndex<'a>)
        ensures policy { result.0 ≡ self.entry }
        ensures contexts { result.1 ≡ Above.contexts_in self.entry.contexts }
    {
        let Draft {
            policy,
            kinds: _,
            attributes: _,
            contexts,
            plain: _,
        } = self;
        (policy, contexts)
    }

    /// The lists.
    pub(crate) fn parts(&self) -> &PolicyParts
        ensures { result.now ≡ self.now }
    {
        &self.policy
    }

    pub(crate) fn has_version(&self) -> bool
        ensures { result ≡ Above.has_version self.now }
    {
        !self.policy.versions.is_empty()
    }

    pub(crate) fn is_kind(&self, name: &Word<'a>) -> bool
        ensures { result ≡ Declarations.is_kind self.now.kinds name.now }
    {
        self.kinds.has(name)
    }

    pub(crate) fn is_attribute(&self, name: &Word<'a>) -> bool
        ensures { result ≡ Declarations.is_attribute self.now.attributes name.now }
    {
        self.attributes.has(name)
    }

    pub(crate) fn has_context(&self, context: &ContextOf<Word<'a>>) -> bool
        ensures { result ≡ Declarations.has_context self.now.contexts context.now }
    {
        self.contexts.has(context)
    }

    pub(crate) fn is_known(&self, who: &WhoOf<Word<'a>>) -> bool
        ensures { result ≡ Declarations.is_known_who self.now.kinds self.now.attributes who.now }
    {
        match who {
            WhoOf::Named(name) => {
                if self.is_plain(name) {
                    return true;
                }
                self.is_kind(name) || self.is_attribute(name)
            }
            WhoOf::Any => true,
            WhoOf::Itself => true,
        }
    }

    /// Whether a name is found at first sight, and nothing is wrong with it. Where it is not found so, nothing is known.
    #[inline(always)]
    pub(crate) fn is_plain(&self, name: &Word<'a>) -> bool
        ensures { IsTrue result → IsPlain self.now.kinds self.now.attributes name.now }
    {
        self.plain.has(name)
    }

    pub(crate) fn are_kinds(&self, names: Words<'a>) -> bool
        ensures { result ≡ list_all (Declarations.is_kind self.now.kinds) names.entry }
    {
        let mut rest = names;
        'names: while let Some(name) = rest.next() {
            if !self.is_kind(&name) {
                return false;
            }
        }
        true
    }

    /// Whether no line more on permissions may stand outside the versions.
    pub(crate) fn is_full_for_listed(&self) -> bool
        ensures { result ≡ nat_le Declarations.listed_limit (Declarations.listed_count self.now) }
    {
        let policy = &self.policy;
        policy
            .nevers
            .len()
            .saturating_add(policy.silent.len())
            .saturating_add(policy.loud.len())
            >= LISTED_LIMIT
    }

    /// Whether no context more may be declared, or no type where the context's type is new.
    #[tactic(auto, unfolding(crate::specs::Above::is_full_for))]
    pub(crate) fn is_full_for(&self, context: &ContextOf<Word<'a>>) -> bool
        ensures { result ≡ Above.is_full_for self.now context.now }
    {
        self.policy.contexts.len() >= CONTEXT_LIMIT
            || (!self.is_kind(&context.kind) && self.policy.kinds.len() >= KIND_LIMIT)
    }

    /// How many rule lines the newest version has.
    #[tactic(auto, unfolding(crate::specs::Above::newest_rules))]
    pub(crate) fn newest_count(&self) -> usize
        ensures { result ≡ length (Above.newest_rules self.now.versions) }
    {
        match self.policy.versions.as_slice().last() {
            None => 0,
            Some(newest) => newest.rules.len(),
        }
    }
}

fn no_parts(alloc: Global) -> PolicyParts
    ensures { result ≡ Grammar.no_parts }
{
    PolicyParts {
        contexts: Rows::new(alloc),
        kinds: Rows::new(alloc),
        attributes: Rows::new(alloc),
        nevers: Rows::new(alloc),
        silent: Rows::new(alloc),
        loud: Rows::new(alloc),
        versions: Rows::new(alloc),
    }
}

// How a policy grows, one line after the other. A list and its index grow together: where the index does not, the list
// loses the line again.
impl<'a> Draft<'a> {
    /// Declares a type that is new.
    pub(crate) fn add_kind(
        &mut self,
        alloc: Global,
        line: u32,
        name: &Word<'a>,
    ) -> Result<(), Memory>
        requires { Declarations.is_kind self.old.kinds name.now ≡ false }
        ensures ok { OnOk result (self.new ≡ Grammar.with_kind line name.now self.old) }
        ensures contexts { self.new.contexts ≡ self.old.contexts }
    {
        let kept = Name::of(alloc, name)?;
        self.policy.kinds.push(KindLine { line, name: kept })?;
        if let Err(memory) = self.kinds.add(name) {
            let _line = self.policy.kinds.pop();
            return Err(memory);
        }
        self.add_plain(name)
    }

    // Lets a declared name be found at first sight, if nothing is wrong with it.
    fn add_plain(&mut self, name: &Word<'a>) -> Result<(), Memory>
        requires { Declarations.is_known_who self.old.kinds self.old.attributes (Named name.now) ≡ true }
        ensures { self.new ≡ self.old }
    {
        if name.is_kind_form() && !name.is_long() {
            self.plain.add(name)?;
        }
        Ok(())
    }

    /// Declares an attribute that is new.
    pub(crate) fn add_attribute(
        &mut self,
        alloc: Global,
        line: u32,
        name: &Word<'a>,
        members: Words<'a>,
    ) -> Result<(), Memory>
        requires { Declarations.is_attribute self.old.attributes name.now ≡ false }
        ensures { OnOk result (self.new ≡ Grammar.with_attribute line name.now members.entry self.old) }
    {
        let kept = Name::of(alloc, name)?;
        let members = kept_names(alloc, members)?;
        self.policy.attributes.push(AttributeLine {
            line,
            name: kept,
            members,
        })?;
        if let Err(memory) = self.attributes.add(name) {
            let _line = self.policy.attributes.pop();
            return Err(memory);
        }
        self.add_plain(name)
    }

    /// Declares a context that is new, and its type where that is new.
    #[tactic(auto, unfolding(crate::specs::Grammar::with_context))]
    pub(crate) fn add_context(
        &mut self,
        alloc: Global,
        line: u32,
        context: &ContextOf<Word<'a>>,
    ) -> Result<(), Memory>
        requires { Declarations.has_context self.old.contexts context.now ≡ false }
        ensures { OnOk result (self.new ≡ Grammar.with_context line context.now self.old) }
    {
        self.add_kind_of(alloc, line, &context.kind)?;
        self.add_context_line(alloc, line, context)
    }

    fn add_kind_of(&mut self, alloc: Global, line: u32, name: &Word<'a>) -> Result<(), Memory>
        ensures ok { OnOk result (self.new ≡ Grammar.with_kind_of line name.now self.old) }
        ensures contexts { self.new.contexts ≡ self.old.contexts }
    {
        if self.is_kind(name) {
            return Ok(());
        }
        self.add_kind(alloc, line, name)
    }

    fn add_context_line(
        &mut self,
        alloc: Global,
        line: u32,
        context: &ContextOf<Word<'a>>,
    ) -> Result<(), Memory>
        requires { Declarations.has_context self.old.contexts context.now ≡ false }
        ensures { OnOk result (self.new ≡ record self.old { contexts = self.old.contexts ++ record { line = line; context = context.now } ∷ [] }) }
    {
        let copy = kept(alloc, context)?;
        self.policy.contexts.push(ContextLine {
            line,
            context: copy,
        })?;
        if let Err(memory) = self.contexts.add(context) {
            let _line = self.policy.contexts.pop();
            return Err(memory);
        }
        Ok(())
    }

    /// Adds a line on permissions outside the versions.
    pub(crate) fn add_listed(&mut self, listing: Listing, pattern: Pattern) -> Result<(), Memory>
        ensures { OnOk result (self.new ≡ Grammar.with_listed listing pattern self.old) }
    {
        match listing {
            Listing::Never => self.policy.nevers.push(pattern),
            Listing::Silent => self.policy.silent.push(pattern),
            Listing::Loud => self.policy.loud.push(pattern),
        }
    }

    /// Begins a version.
    pub(crate) fn add_version(&mut self, alloc: Global, line: u32) -> Result<(), Memory>
        ensures { OnOk result (self.new ≡ Grammar.with_version line self.old) }
    {
        self.policy.versions.push(Version {
            line,
            rules: Rows::new(alloc),
        })
    }

    /// Gives the newest version one rule line more.
    pub(crate) fn add_rule(&mut self, alloc: Global, rule: RuleLine) -> Result<(), Memory>
        ensures { OnOk result (self.new ≡ record self.old { versions = Grammar.with_rule rule self.old.versions }) }
    {
        add_rule(alloc, rule, &mut self.policy.versions)
    }
}

// Gives the newest version one rule line more. Meanwhile the list is a vector, whose last member changes where it stands.
fn add_rule(alloc: Global, rule: RuleLine, versions: &mut Rows<Version>) -> Result<(), Memory>
    ensures { OnOk result (versions.new ≡ Grammar.with_rule rule versions.old) }
{
    let mut changed = replace(versions, Rows::new(alloc)).into_vec();
    let added = add_to_last(rule, &mut changed);
    *versions = Rows::from_vec(changed);
    added
}

fn add_to_last(rule: RuleLine, versions: &mut Vec<Version>) -> Result<(), Memory>
    ensures { OnOk result (versions.new.items ≡ Grammar.with_rule rule versions.old.items) }
{
    let Some(newest) = versions.last_mut() else {
        return Ok(());
    };
    newest.rules.push(rule)
}

fn kept_names(alloc: Global, words: Words<'_>) -> Result<Rows<Name>, Memory>
    ensures { IfOk result (λ names. names ≡ words.entry) }
{
    let mut names = Rows::new(alloc);
    let mut rest = words;
    'names: while let Some(word) = rest.next() {
        names.push(Name::of(alloc, &word)?)?;
    }
    Ok(names)
}
