//! What a program reaches of the system: its files and its programs.
use crate::ending::Fault;
use cc2_base::files::HostFiles;
use cc2_base::programs::HostPrograms;

/// The files of the system.
///
/// # Errors
/// `Fault::Memory` where memory ran out.
pub fn host_files(rt: &HostRuntime) -> Result<HostFiles<HostRuntime>, Fault> {
    match rt.clone() {
        Ok(runtime) => Ok(HostFiles::new(runtime)),
        Err(_) => Err(Fault::Memory),
    }
}

/// The programs of the system, none run yet.
///
/// # Errors
/// `Fault::Memory` where memory ran out.
pub fn host_programs(rt: &HostRuntime) -> Result<HostPrograms<HostRuntime>, Fault> {
    match rt.clone() {
        Ok(runtime) => Ok(HostPrograms::new(runtime)),
        Err(_) => Err(Fault::Memory),
    }
}
