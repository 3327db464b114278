//! The least number of registers that a value enters on its way to a port.
ghost use Rattle.std.specs.Prelude.{◌<◌, ◌≤◌, length};
ghost use Rattle.cg_model.specs.Limits.{most_resources};

use crate::flow::is_of;
use cg_arch::{Kind, Resource, Unit};
use std::alloc::{AllocError, Global};
use std::mem::replace;

/// The value that denotes that there is no way, in place of a number of registers.
pub const NO_WAY: u32 = 255;

/// The greatest number of registers that is counted.
const MOST_HOPS: u8 = 254;

/// Returns for each port the least numbers of registers that are entered on ways from the resources to it, by resource
/// number, 255 where there is no way; for other resources an empty list.
pub(crate) fn ways_of(alloc: Global, resources: &[Resource]) -> Result<Vec<Vec<u8>>, AllocError>
    requires { length resources.now ≤ most_resources }
{
    let mut ways = Vec::new(alloc);
    for number in 0..resources.len() {
        ways.push(ways_to(alloc, resources, number as u32)?)?;
    }
    Ok(ways)
}

/// Returns the least numbers to resource `number`; empty where it is not a port.
fn ways_to(alloc: Global, resources: &[Resource], number: u32) -> Result<Vec<u8>, AllocError> {
    if is_of(resources, number, Kind::Port) {
        ways_to_port(alloc, resources, number)
    } else {
        Ok(Vec::new(alloc))
    }
}

/// Returns the least numbers to `port`.
fn ways_to_port(alloc: Global, resources: &[Resource], port: u32) -> Result<Vec<u8>, AllocError> {
    let mut wave = Wave::at(alloc, resources, port)?;
    for hops in 0..MOST_HOPS {
        if wave.here.is_empty() {
            break;
        }
        wave.round(alloc, hops)?;
    }
    Ok(wave.ways)
}

/// A wave that goes back from a port in rounds: in each round one more register is entered on the ways to the port.
#[derive(Drop)]
struct Wave<'a> {
    resources: &'a [Resource],
    /// The least numbers of registers found so far, by resource number; 255 where no way is found yet.
    ways: Vec<u8>,
    /// The resources from which the round goes back. It adds those that it reaches without another register.
    here: Vec<u32>,
    /// The resources from which the next round goes back.
    later: Vec<u32>,
}

impl<'a> Wave<'a> {
    /// Returns the wave that begins at `port`.
    fn at(alloc: Global, resources: &'a [Resource], port: u32) -> Result<Wave<'a>, AllocError> {
        let mut wave = Wave {
            resources,
            ways: vec![in alloc; 255u8; resources.len()]?,
            here: Vec::new(alloc),
            later: Vec::new(alloc),
        };
        if try_lower(&mut wave.ways, port, 0) {
            wave.here.push(port)?;
        }
        Ok(wave)
    }

    /// Goes back from the resources whose number of registers is `hops` as far as no register is entered, and on to
    /// those of the next round.
    fn round(&mut self, alloc: Global, hops: u8) -> Result<(), AllocError>
        requires { hops < 255 }
    {
        for place in 0..self.resources.len() {
            let Some(number) = self.here.get(place).copied() else {
                break;
            };
            self.go_back(number, hops)?;
        }
        self.here = replace(&mut self.later, Vec::new(alloc));
        Ok(())
    }

    /// Goes back from resource `number` to its drivers, if the number of registers from it is `hops`.
    fn go_back(&mut self, number: u32, hops: u8) -> Result<(), AllocError>
        requires { hops < 255 }
    {
        let resources = self.resources;
        if let Some(resource) = resources.get(number as usize) {
            let drivers = resource.drivers.as_slice();
            if self.ways.get(number as usize) != Some(&hops) {
                return Ok(());
            }
            if resource.kind == Kind::Register {
                lower(drivers, hops + 1, &mut self.later, &mut self.ways)?;
            } else {
                lower(drivers, hops, &mut self.here, &mut self.ways)?;
            }
        }
        Ok(())
    }
}

/// Lowers the numbers of `drivers` to `hops` where they are greater, and adds these drivers to `list`.
fn lower(
    drivers: &[u32],
    hops: u8,
    list: &mut Vec<u32>,
    ways: &mut [u8],
) -> Result<(), AllocError> {
    for driver in drivers {
        if try_lower(ways, *driver, hops) {
            list.push(*driver)?;
        }
    }
    Ok(())
}

/// Lowers the number of resource `number` to `hops` where it is greater, and returns whether it was.
fn try_lower(ways: &mut [u8], number: u32, hops: u8) -> bool {
    match ways.get_mut(number as usize) {
        Some(way) => {
            let was = *way;
            *way = was.min(hops);
            hops < was
        }
        None => false,
    }
}

/// Returns the greatest number on a way from an out to a port, where there is a way.
pub(crate) fn diameter_of(units: &[Unit], outs: &[u32], ways: &[Vec<u8>]) -> u32
    ensures { result < 255 }
{
    let mut most = 0;
    for unit in units {
        most = farthest(most, unit.ports.as_slice(), outs, ways);
    }
    most
}

/// Returns the greater of `least` and the greatest number on a way from an out to one of `ports`.
fn farthest(least: u32, ports: &[u32], outs: &[u32], ways: &[Vec<u8>]) -> u32
    requires { least < 255 }
    ensures { result < 255 }
{
    let mut most = least;
    for port in ports {
        most = farthest_out(most, outs, row_of(ways, *port));
    }
    most
}

/// Returns the greater of `least` and the greatest number on a way from an out to a port.
fn farthest_out(least: u32, outs: &[u32], ways: &[u8]) -> u32
    requires { least < 255 }
    ensures { result < 255 }
{
    let mut most = least;
    for out in outs {
        most = greater(most, hops_from(ways, *out));
    }
    most
}

/// Returns the greater of `most` and `hops`, or `most` where `hops` is `NO_WAY`.
fn greater(most: u32, hops: u32) -> u32
    requires { most < 255 }
    ensures { result < 255 }
{
    if hops < NO_WAY { most.max(hops) } else { most }
}

/// Returns the numbers to `port`, by resource; empty where it is not a port.
#[inline]
pub(crate) fn row_of(ways: &[Vec<u8>], port: u32) -> &[u8] {
    match ways.get(port as usize) {
        Some(row) => row.as_slice(),
        None => &[],
    }
}

/// Returns the number of `resource` in `ways`.
#[inline]
pub(crate) fn hops_from(ways: &[u8], resource: u32) -> u32
    ensures { result ≤ 255 }
{
    match ways.get(resource as usize) {
        Some(hops) => u32::from(*hops),
        None => NO_WAY,
    }
}
