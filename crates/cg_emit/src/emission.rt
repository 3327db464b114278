//! The configuration of a legal mapping and the bytes that encode it.
ghost use Rattle.std.specs.Prelude.{◌≡◌, ◌<◌, ℕ, IfOk, Ok, List, length};
ghost use Rattle.cg_model.specs.Canonical.{IsCanonical};
ghost use Rattle.cg_model.specs.Config as configs;
ghost use Rattle.cg_model.specs.Configured.{stages_of};
ghost use Rattle.cg_model.specs.Overlap.{CarriesOne};
ghost use Rattle.cg_arch.specs.Kept.{digest_of};
ghost use Rattle.cg_bits.specs.Answers.{answer_of};
ghost use Rattle.cg_bits.specs.Ranges.{IsBytes};
ghost use Rattle.cg_bits.specs.Spelling.{AreBits};
ghost use Rattle.cg_check.specs.Legal.{config_of};
ghost use Rattle.cg_emit.specs.Building.{AreSoon};
ghost use Rattle.cg_emit.specs.Emitted.{RunLikeTurns};

use crate::nodes::set_nodes;
use crate::selects::set_routes;
use cg_arch::Arch;
use cg_bits::{Config, write_bits};
use cg_check::LegalMapping;
use cg_model::Place;
use cg_overlap::{configures, overlaps};
use std::alloc::{AllocError, Global};

/// Returns the configuration of a legal mapping: the selects that the positions of its routes require, the fields that
/// its nodes require at their places, and zeros elsewhere.
pub fn configuration(alloc: Global, legal: &LegalMapping<'_>) -> Result<Config, AllocError>
    ensures mapped { IfOk result (λ config. config ≡ config_of legal.now) }
    ensures canonical { IfOk result (λ config. IsCanonical legal.now.arch config) }
{
    let _nodes = legal.kernel().nodes();
    configures();
    let mut config = Config::new(alloc, legal.arch(), legal.mapping().ii())?;
    set_nodes(&mut config, legal);
    set_routes(&mut config, legal);
    Ok(config)
}

/// Returns the greatest stage of `places` plus 1, or 1 if there is no place.
fn stages_of(ii: u32, places: &[Place]) -> u32
    requires some { 0 < ii }
    requires soon { AreSoon places.now }
    ensures { result ≡ stages_of ii places.now }
{
    let mut stages = 1;
    for place in places {
        stages = stages.max(place.time / ii + 1);
    }
    stages
}

/// Returns the number of stages of a legal mapping's configuration: the greatest round in which a node works on
/// iteration 0, plus 1. A round has as many cycles as the interval.
pub fn stages(legal: &LegalMapping<'_>) -> u32
    ensures { result ≡ (config_of legal.now).stages }
{
    let mapping = legal.mapping();
    stages_of(mapping.ii(), mapping.places())
}

/// Returns the digest of `arch`, which has 32 bytes.
fn digest(arch: &Arch) -> [u8; 32]
    ensures { length (digest_of arch.now) ≡ 32 }
{
    arch.digest()
}

/// States laws of the bytes that encode a legal mapping's configuration: what reading them gives, and what their run
/// does.
fn run_like_turns(legal: &LegalMapping<'_>)
    ensures once { CarriesOne legal.now.arch legal.now.kernel legal.now.mapping }
    ensures read { (bytes : List ℕ) → AreBits legal.now.arch (config_of legal.now) bytes → answer_of legal.now.arch bytes ≡ Ok (config_of legal.now) }
    ensures only { (bytes : List ℕ) → AreBits legal.now.arch (config_of legal.now) bytes → (C : configs.Config) → AreBits legal.now.arch C bytes → C ≡ config_of legal.now }
    ensures overlaps { (bytes : List ℕ) → AreBits legal.now.arch (config_of legal.now) bytes → RunLikeTurns legal.now.arch legal.now.kernel legal.now.mapping bytes }
{
    let _mapping = legal.mapping();
    let _nodes = legal.kernel().nodes();
    let _contexts = legal.arch().contexts();
    let _digest = digest(legal.arch());
    overlaps();
}

/// Returns the bitstream of a legal mapping. An array that runs it works on several iterations at once, and has the
/// same effect as the iterations one after the other.
pub fn emit(alloc: Global, legal: &LegalMapping<'_>) -> Result<Vec<u8>, AllocError>
    ensures bits { IfOk result (λ bytes. AreBits legal.now.arch (config_of legal.now) bytes.items) }
    // The bytes encode no other configuration, no other bytes encode this configuration, and reading the bytes gives it
    // back.
    ensures only { IfOk result (λ bytes. (C : configs.Config) → AreBits legal.now.arch C bytes.items → C ≡ config_of legal.now) }
    ensures one_spelling { IfOk result (λ bytes. (others : List ℕ) → IsBytes others → AreBits legal.now.arch (config_of legal.now) others → others ≡ bytes.items) }
    ensures read { IfOk result (λ bytes. answer_of legal.now.arch bytes.items ≡ Ok (config_of legal.now)) }

    // The overlap theorem: in a cycle no resource carries and no unit begins two values, and the run does what the
    // iterations do, in each cycle and in the end.
    ensures once { CarriesOne legal.now.arch legal.now.kernel legal.now.mapping }
    ensures overlaps { IfOk result (λ bytes. RunLikeTurns legal.now.arch legal.now.kernel legal.now.mapping bytes.items) }
{
    run_like_turns(legal);
    let config = configuration(alloc, legal)?;
    write_bits(alloc, legal.arch(), &config)
}
