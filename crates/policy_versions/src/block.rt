//! The rows of one version and class while its lines are drawn into them.

ghost use Rattle.std.specs.Prelude.{◌≡◌, ℕ, ◌<◌, ◌&&◌, ◌==◌, ◌∷◌, ◌++◌, [], false, List, length};
ghost use Rattle.policy_model.specs.declared.policy.PolicyParts.{PolicyParts};
ghost use Rattle.policy_model.specs.declared.policy.RuleLine.{RuleLine};
ghost use Rattle.policy_model.specs.Kept.{IsRule};
ghost use Rattle.policy_versions.specs.Sets.{has_place};
ghost use Rattle.policy_versions.specs.Kinds.{AreKindsOf};
ghost use Rattle.policy_versions.specs.Changes.{cell_of, AreBlank, AreChanged, AreMatchedChanged, AllTell};

use crate::change::{Change, Content, change_of};
use crate::kind_set::KindSet;
use crate::kinds::Kinds;
use crate::row::Row;
use flask_sid::Memory;
use policy_model::{RuleLine, Who};
use std::alloc::Global;

/// The rows of one version and class, by the places of the sources.
#[derive(Drop)]
pub(crate) struct Block {
    pub(crate) rows: Vec<Row>,
    /// Whether lines may have been drawn into the rows. Where none was, no time goes into rows that stay blank.
    pub(crate) is_drawn: bool,
    ghost whole: { length rows.items ≡ 128 },
    ghost blank: { is_drawn ≡ false → AreBlank rows.items },
}

impl Block {
    /// A block for drawing.
    pub(crate) fn new(alloc: Global) -> Result<Block, Memory> {
        let rows = vec![in alloc; Row::empty(); 128]?;
        Ok(Block {
            rows,
            is_drawn: false,
        })
    }

    /// Nothing is drawn yet.
    pub(crate) fn clear(&mut self)
        ensures { (s t : ℕ) → s < 128 → cell_of self.new.rows.items s t ≡ 0 }
    {
        if !self.is_drawn {
            return;
        }
        for row in self.rows.iter_mut() {
            *row = Row::empty();
        }
        self.is_drawn = false;
    }

    /// Draws one rule line more.
    pub(crate) fn draw_line(&mut self, kinds: &Kinds, content: Content, rule: &RuleLine)
        ensures { (policy : PolicyParts) (above : List RuleLine) → AreKindsOf policy kinds.now
            → IsRule policy.kinds policy.attributes rule.now
            → AllTell content policy above rule.now.class self.old.rows.items
            → AllTell content policy (above ++ rule.now ∷ []) rule.now.class self.new.rows.items }
    {
        if let Some(change) = change_of(kinds, content, &rule.verdict) {
            self.change(kinds, &rule.source, &rule.target, change);
        }
    }

    fn change(&mut self, kinds: &Kinds, source: &Who, target: &Who, change: Change)
        ensures { (policy : PolicyParts) → AreKindsOf policy kinds.now
            → AreMatchedChanged policy source.now target.now change self.old.rows.items self.new.rows.items }
    {
        let sources = kinds.sources(source);
        match target {
            Who::Itself => self.change_own(sources, change),
            _ => self.change_rows(sources, kinds.sources(target), change),
        }
    }

    fn change_rows(&mut self, sources: &KindSet, targets: &KindSet, change: Change)
        ensures { AreChanged (λ s t. has_place sources.now.words s && has_place targets.now.words t) change
            self.old.rows.items self.new.rows.items }
    {
        self.is_drawn = true;
        let mut s = usize::from(sources.links[0]);
        'sources: while s < 128 {
            if sources.words[s] != 0 {
                let row = &mut self.rows[s];
                row.change(targets, change);
            }
            s = usize::from(sources.links[s + 1]);
        }
    }

    fn change_own(&mut self, sources: &KindSet, change: Change)
        ensures { AreChanged (λ s t. has_place sources.now.words s && (s == t)) change
            self.old.rows.items self.new.rows.items }
    {
        self.is_drawn = true;
        let mut s = usize::from(sources.links[0]);
        'sources: while s < 128 {
            if sources.words[s] != 0 {
                let row = &mut self.rows[s];
                row.change_one(s, change);
            }
            s = usize::from(sources.links[s + 1]);
        }
    }
}
