//! The fields that the nodes of a mapping require of their units.
ghost use Rattle.std.specs.Prelude.{◌≡◌, ◌+◌, ◌<◌};
ghost use Rattle.cg_model.specs.Kernel as kernels;
ghost use Rattle.cg_model.specs.Kernel.{size};
ghost use Rattle.cg_model.specs.Mapping.{IsLegal, place};
ghost use Rattle.cg_model.specs.Configured.{node_fields};
ghost use Rattle.cg_model.specs.Canonical.{IsCanonical};
ghost use Rattle.cg_config.specs.Changes.{all_off};
ghost use Rattle.cg_emit.specs.Building.{HasNodes};

use crate::fields::node_fields;
use cg_bits::{Config, Contexts, UnitFields};
use cg_check::LegalMapping;
use cg_model::Place;

/// Returns the place of `node`.
pub(crate) fn place_of(legal: &LegalMapping<'_>, node: u32) -> Place
    requires { node < size legal.now.kernel }
    ensures place { result ≡ place legal.now.mapping node }
    ensures legal { IsLegal legal.now.arch legal.now.kernel legal.now.mapping }
{
    legal.mapping().places()[node as usize]
}

/// Returns the fields that `node` requires of its unit in stage `stage`.
fn fields_of(legal: &LegalMapping<'_>, node: u32, stage: u32) -> UnitFields
    requires { node < size legal.now.kernel }
    ensures fields { result ≡ node_fields (kernels.node legal.now.kernel node) stage }
    ensures valid { kernels.IsKernel legal.now.kernel }
{
    node_fields(&legal.kernel().nodes()[node as usize], stage)
}

/// Sets the fields that `node` requires of its unit, in the slot of the node's time.
fn set_node(config: &mut Config, legal: &LegalMapping<'_>, node: u32)
    requires canonical { IsCanonical legal.now.arch config.old }
    requires node { node < size legal.now.kernel }
    requires before { HasNodes legal.now.arch legal.now.kernel legal.now.mapping config.old node }
    ensures canonical { IsCanonical legal.now.arch config.new }
    ensures after { HasNodes legal.now.arch legal.now.kernel legal.now.mapping config.new (node + 1) }
    ensures selects { config.new.selects ≡ config.old.selects }
{
    let ii = config.ii();
    let place = place_of(legal, node);
    let fields = fields_of(legal, node, place.time / ii);
    config.set_unit(legal.arch(), place.unit, place.time % ii, fields);
}

/// Sets the fields that all nodes require of their units.
pub(crate) fn set_nodes(config: &mut Config, legal: &LegalMapping<'_>)
    requires canonical { IsCanonical legal.now.arch config.old }
    requires off { config.old ≡ all_off legal.now.arch legal.now.mapping.ii }
    ensures canonical { IsCanonical legal.now.arch config.new }
    ensures nodes { HasNodes legal.now.arch legal.now.kernel legal.now.mapping config.new (size legal.now.kernel) }
    ensures selects { config.new.selects ≡ config.old.selects }
{
    for node in 0..legal.kernel().nodes().len() {
        set_node(config, legal, node as u32);
    }
}
