ghost use Rattle.std.specs.Prelude.{◌≡◌, ◌<◌, ℕ};
ghost use Rattle.kn_scaling.specs.Average.{Samples, window_average};
ghost use Rattle.kn_window.specs.Stands.{IsWindowOf, WindowState};

/// Of samples that agree. What lies at the end of a window or later counts for nothing in its average.
pub fn sample_laws()
    ensures same { (w : WindowState) (f g : Samples) → ((s : ℕ) → f s ≡ g s) → IsWindowOf w f → IsWindowOf w g }
    ensures below { (f g : Samples) (n end : ℕ) → ((s : ℕ) → s < end → f s ≡ g s) → window_average f n end ≡ window_average g n end }
{}
