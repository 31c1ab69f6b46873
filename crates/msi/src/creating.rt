//! Creating packages, and turning them back into their devices.

ghost use Rattle.std.specs.Prelude.{◌≡◌, ◌&&◌, IfErr, IfOk, IfSome, IsErrAnd, false, not};
ghost use Rattle.msi_base.specs.Refusals.{first_refusal};
ghost use Rattle.msi_container_device.specs.Faults.{is_io};
ghost use Rattle.msi.specs.Runs.{fresh};
ghost use Rattle.msi.specs.Flushing.{FlushStep, IsCreateRefused, IsCreated, flush_answer, is_fault, told};
ghost use Rattle.msi.specs.Steps.{flush_refusals};
ghost use Rattle.msi.specs.Whole.{Whole};

use crate::OpenStream;
use crate::kinds::PackageType;
use crate::package::Package;
use msi_base::errors::Error;
use msi_container_device::Device;
use msi_database::Database;
use msi_summary::parts::new_summary;
use std::alloc::Global;

impl<F: Device + Drop> Package<F> {
    /// Creates a package and writes it over all that a device has. It has the system tables alone, and a summary with
    /// a title.
    ///
    /// # Errors
    /// Fails with `OutOfMemory`, with `Io` if a call of the device failed, or with `InvalidInput` if the device holds
    /// so many bytes that the file would pass 2^31.
    pub fn create(alloc: Global, kind: PackageType, inner: F) -> Result<Package<F>, Error>
        ensures state { IfOk result (λ made. made.state ≡ fresh kind) }
        ensures held { IfOk result (λ made. IsCreated kind (told (F.held inner) (F.failed inner)) made) }
        ensures failed { IfOk result (λ made. made.failed ≡ false) }
        ensures handed_on { IfOk result (λ made. made.pending ≡ false) }
        ensures refused { IfErr result (IsCreateRefused kind (told (F.held inner) (F.failed inner))) }
        ensures faultless { F.can_fail ≡ false → F.writes_can_fail ≡ false → is_io result ≡ false }
    {
        let mut package = Package {
            device: inner,
            alloc,
            kind,
            summary: new_summary(alloc, kind.title())?,
            database: Database::new(alloc)?,
            open: None,
            current: OpenStream::new(alloc),
            has_storages: false,
            is_unwritten: true,
            is_summary_lent: true,
            is_pool_changed: true,
        };
        package.flush()?;
        Ok(package)
    }
}

impl<F: Device> Package<F> {
    /// Flushes the package and returns its device. If the flush fails, the package is returned as the flush leaves
    /// it.
    ///
    /// # Errors
    /// Fails as `flush` does.
    pub fn into_inner(mut self) -> Result<F, (Error, Package<F>)>
        ensures ok { IfOk result (λ inner. (left : Whole) × FlushStep self (flush_answer (Ok tt)) left
            × (F.held inner ≡ left.held) × (F.failed inner ≡ left.failed)) }
        ensures handed_on { IfOk result (λ inner. F.pending inner ≡ (not self.state.is_unwritten && self.pending)) }
        ensures refused { IfErr result (λ refused. FlushStep self (flush_answer (Err refused.0)) refused.1) }
        ensures faultless { F.can_fail ≡ false → F.writes_can_fail ≡ false
            → IfErr result (λ refused. is_fault refused.0 ≡ false) }
        ensures early { IfSome (first_refusal (flush_refusals self.state)) (λ kind.
            IsErrAnd result (λ refused. refused.0 ≡ kind)) }
    {
        match self.flush() {
            Ok(()) => Ok(self.into_reader()),
            Err(error) => Err((error, self)),
        }
    }
}
