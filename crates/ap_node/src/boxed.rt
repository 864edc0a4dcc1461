//! What an access point has with a station, in memory of its own, so that a place in the map of the
//! stations is small.

ghost use Rattle.std.specs.Prelude.{◌≡◌, IfOk};
ghost use Rattle.std.specs.Borrow.{sem};
ghost use Rattle.ap_node.specs.State.{no_station};
ghost use Rattle.ap_node.specs.Lent.{IsLent};

use crate::station::Station;
use domain_base::NoMemory;
use std::alloc::Global;
use std::marker::Model;

/// What there is with a station, in memory of its own. Contracts see what there is.
#[derive(Drop)]
pub struct BoxedStation(Box<Station>);

impl Model for BoxedStation {
    ghost use Rattle.ap_node.specs.declared.station.Station.{Station};

    ghost Value = { Station };

    ghost view = { λ b. b.0.value };
}

impl BoxedStation {
    /// Neither an attempt nor a session, and the memory for them.
    pub fn none(alloc: Global) -> Result<Self, NoMemory>
        ensures { IfOk result (λ b. b ≡ no_station) }
    {
        let station = Box::new(alloc, Station::none())?;
        Ok(BoxedStation(station))
    }

    /// What there is.
    pub fn station(&self) -> &Station
        ensures { result.now ≡ self.now }
    {
        self.0.as_ref()
    }

    /// What there is, to be changed.
    pub fn station_mut(&mut self) -> &mut Station
        ensures* lent { sem 𝓛 (IsLent self.entry result) }
        ensures value { result.now ≡ self.old }
    {
        self.0.as_mut()
    }
}
