//! Layers for edges, and routes by layers of their own.

use crate::ends::{Connection, Leaving};
use crate::pool::Filling;
use crate::routes::Routes;
use cg_search_router::{Extent, Stand, UNREACHED};
use std::alloc::{AllocError, Global};

impl<'a> Routes<'a> {
    /// Fills buffer `number` with the least prices from where a node's value is, beginning at the time at which it
    /// leaves the unit, as far as `extent`; with nothing where there is no extent.
    pub fn spread_from(
        &mut self,
        number: u32,
        from: Leaving,
        extent: Option<Extent>,
    ) -> Result<(), AllocError> {
        let buffer = self.pool.buffer_mut(number);
        buffer.filling = Filling::Forward;
        match extent {
            Some(extent) => self.standing.spread(&mut buffer.layers, from, None, extent),
            None => {
                buffer.layers.close();
                Ok(())
            }
        }
    }

    /// Fills buffer `number` with the least prices to `to`, a port at a time, as far as `extent`; with nothing where
    /// there is no extent.
    pub fn spread_to(
        &mut self,
        number: u32,
        to: Stand,
        extent: Option<Extent>,
    ) -> Result<(), AllocError> {
        let buffer = self.pool.buffer_mut(number);
        buffer.filling = Filling::Backward;
        match extent {
            Some(extent) => buffer.layers.backward(self.standing.fabric(), to, extent),
            None => {
                buffer.layers.close();
                Ok(())
            }
        }
    }

    /// Returns the least price in buffer `number` for `resource` in `layer`; `UNREACHED` outside the layers.
    #[inline]
    pub fn price(&self, number: u32, layer: u32, resource: u32) -> u32 {
        self.pool.buffer(number).layers.price(layer, resource)
    }

    /// Checks whether buffer `number` has `layer`.
    pub fn holds(&self, number: u32, layer: u32) -> bool {
        self.pool.buffer(number).layers.holds(layer)
    }

    /// Checks whether buffer `number` keeps its layers until it is filled again itself: otherwise the next filling of a
    /// buffer that isn't kept overwrites it.
    pub fn is_kept(&self, number: u32) -> bool {
        self.pool.is_kept(number)
    }

    /// Routes `connection`, which has no route, by layers of its own. Returns the cost of the route; None where there is
    /// no route.
    pub fn connect(
        &mut self,
        alloc: Global,
        connection: Connection,
    ) -> Result<Option<u32>, AllocError> {
        let ends = connection.ends;
        let wiring = self.standing.problem.wiring;
        if wiring.hops(ends.from.at.resource, ends.to.resource) > ends.cycles() {
            return Ok(None);
        }
        let price = self.spread_between(connection)?;
        if price >= UNREACHED {
            return Ok(None);
        }
        let route = self.scratch.way_to(alloc, wiring, ends.to)?;
        self.standing.put(ends.from.source, connection.edge, route)?;
        Ok(Some(price))
    }

    /// Finds the least price of a route of `connection`; `UNREACHED` where there is none.
    fn spread_between(&mut self, connection: Connection) -> Result<u32, AllocError> {
        let ends = connection.ends;
        let port = ends.to.resource;
        let extent = Extent {
            last: ends.cycles(),
            cap: connection.cap,
        };
        self.standing
            .spread(&mut self.scratch, ends.from, Some(port), extent)?;
        Ok(self.scratch.price(extent.last, port))
    }
}
