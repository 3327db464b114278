//! The ports of streams.
use crate::constants::{constant_of, place_of};
use crate::fault::CheckFault;
use crate::names::Names;
use cg_c_syntax::Expr;
use std::alloc::{AllocError, Global};
use std::marker::Model;

/// The number of ports of each kind.
const PORTS: u32 = 16;

/// The ports that are taken, which contracts see as a list.
#[derive(Drop)]
pub(crate) struct Ports {
    taken: Vec<u32>,
}

impl Model for Ports {
    ghost use Rattle.std.specs.Prelude.{List, ℕ};

    ghost Value = { List ℕ };

    ghost view = { λ p. p.taken.items };
}

impl Ports {
    ghost use Rattle.std.specs.Prelude.{◌≡◌, ◌≢◌, ◌==◌, [], ◌∷◌, ◌++◌, Ok, Err, IfOk, IfErr, OnOk};
    ghost use Rattle.cg_c_syntax.specs.Written.{expr_of};
    ghost use Rattle.std.specs.List.{list_any};
    ghost use Rattle.cg_c_check.specs.Ports as spec;

    /// Returns no ports.
    pub fn new(alloc: Global) -> Self
        ensures { result ≡ [] }
    {
        Ports {
            taken: Vec::new(alloc),
        }
    }

    /// Returns whether `port` is one, and not taken.
    fn is_free(&self, port: u32) -> bool
        ensures { result ≡ spec.is_free_port self.now port }
    {
        port < PORTS && !self.is_taken(port)
    }

    /// Returns whether `port` is taken.
    fn is_taken(&self, port: u32) -> bool
        ensures { result ≡ list_any (λ other. other == port) self.now }
    {
        self.taken.iter().any(|other| *other == port)
    }

    /// Takes the port that `expr` is where `names` are visible, and returns it.
    #[tactic(auto, unfolding(crate::specs::Ports::port_of))]
    pub fn take<'s>(&mut self, names: &Names<'s>, expr: &'s Expr) -> Result<u32, CheckFault>
        ensures ok { IfOk result (λ port. spec.port_of self.old names.now (expr_of expr.now) ≡ Ok port) }
        ensures taken { IfOk result (λ port. self.new ≡ self.old ++ port ∷ []) }
        ensures err { IfErr result (λ fault. fault ≢ CheckFault.Memory → spec.port_of self.old names.now (expr_of expr.now) ≡ Err fault) }
    {
        let port = constant_of(names, expr)?.word;
        if !self.is_free(port) {
            return Err(CheckFault::BadPort(place_of(expr)));
        }
        self.add(port)?;
        Ok(port)
    }

    /// Adds `port`.
    fn add(&mut self, port: u32) -> Result<(), AllocError>
        ensures { OnOk result (self.new ≡ self.old ++ port ∷ []) }
    {
        self.taken.push(port)?;
        Ok(())
    }
}
