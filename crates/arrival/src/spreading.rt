// Spherical spreading: the energy of an arrival by its distance.
ghost use Rattle.std.specs.Prelude.{◌≡◌};
ghost use Rattle.arrival.specs.Energy.{energy_of};

// The energy at any distance. Past 4,096 metres none is left, and no square is made, which might not fit.
pub fn energy(distance: u64) -> u64
    ensures { result ≡ energy_of distance }
{
    if distance == 0 {
        return 0;
    }
    if distance <= 4096 {
        return 16777216 / (distance * distance);
    }
    0
}
