// A law of the kernel's methods, for the crates above.
ghost use Rattle.std.specs.Prelude.{Ok};
ghost use Rattle.std.specs.List.{All};
ghost use Rattle.s80_kernel.specs.Methods.{kernel_methods};
ghost use Rattle.s80_change.specs.Check.{IsCheckOf};

/// Each source is a method of its selector, which fits a machine.
pub fn kernel_sources_fit()
    ensures { All (λ row. IsCheckOf row.source (Ok row.selector)) kernel_methods }
{}
