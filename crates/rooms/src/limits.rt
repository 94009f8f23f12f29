// What a node may carry, and what a share carries of a load.
ghost use Rattle.std.specs.Prelude.{◌≡◌, ◌*◌, ◌/◌, ◌≤◌};
ghost use Rattle.rooms.specs.Table.{IsScale, most_watts};
ghost use Rattle.rooms.specs.Limits.{carried};

// A node's limit, by its rating and its percent.
pub fn limit_of(rating: u32, percent: u32) -> u32
    requires percent { percent ≤ 100 }
    ensures result { result ≡ rating * percent / 100 }
{
    (u64::from(rating) * u64::from(percent) / 100) as u32
}

// What a share carries of a load, rounded up: a cord's low is that of its server's least.
pub fn carried_by(share: u32, load: u32, scale: u32) -> u32
    requires in_range { IsScale scale × (share ≤ scale) × (load ≤ most_watts) }
    ensures result { result ≡ carried scale share load }
{
    let parts = u64::from(share) * u64::from(load) + (u64::from(scale) - 1);
    // A division by a number that the compiler knows is far faster.
    if scale == 1000 {
        return (parts / 1000) as u32;
    }
    if scale == 10000 {
        return (parts / 10000) as u32;
    }
    (parts / u64::from(scale)) as u32
}
