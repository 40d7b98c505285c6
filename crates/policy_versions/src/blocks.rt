//! The rows of one version as they are drawn, a block for each class.

ghost use Rattle.std.specs.Prelude.{◌≡◌, ℕ, ◌<◌, length, slice_index_or};
ghost use Rattle.policy_model.specs.declared.policy.PolicyParts.{PolicyParts};
ghost use Rattle.policy_versions.specs.Kinds.{AreKindsOf};
ghost use Rattle.policy_versions.specs.Cells.{class_place};
ghost use Rattle.policy_versions.specs.Changes.{cell_of, AreRules, AllTell};

use crate::block::Block;
use crate::change::Content;
use crate::kinds::Kinds;
use access_vectors::Class;
use flask_sid::Memory;
use policy_model::RuleLine;
use std::alloc::Global;

/// The blocks of the classes, in the order of the classes.
#[derive(Drop)]
pub(crate) struct Blocks {
    pub(crate) drawn: Vec<Block>,
    ghost whole: { length drawn.items ≡ 5 },
}

impl Blocks {
    /// Blocks for drawing.
    pub(crate) fn new(alloc: Global) -> Result<Blocks, Memory> {
        let mut blocks = Vec::new(alloc);
        'classes: for _made in 0..5usize {
            blocks.push(Block::new(alloc)?)?;
        }
        Ok(Blocks { drawn: blocks })
    }

    /// Draws the rule lines of a version, from the first to the last, each into the block of its class.
    pub(crate) fn draw(&mut self, kinds: &Kinds, content: Content, rules: &[RuleLine])
        ensures { (policy : PolicyParts) (class : Class) (none : Block) → AreKindsOf policy kinds.now → AreRules policy rules.now
            → AllTell content policy rules.now class (slice_index_or self.new.drawn.items (class_place class) none).rows.items }
    {
        self.clear();
        'rules: for rule in rules {
            self.drawn[place_of(rule.class)].draw_line(kinds, content, rule);
        }
    }

    fn clear(&mut self)
        ensures { (at s t : ℕ) (none : Block) → at < 5 → s < 128 → cell_of (slice_index_or self.new.drawn.items at none).rows.items s t ≡ 0 }
    {
        'each: for block in self.drawn.iter_mut() {
            block.clear();
        }
    }
}

/// The place of a class among the classes.
pub(crate) fn place_of(class: Class) -> usize
    ensures value { result ≡ class_place class }
    ensures within { result < 5 }
{
    match class {
        Class::File => 0,
        Class::Dir => 1,
        Class::Process => 2,
        Class::Port => 3,
        Class::Security => 4,
    }
}
