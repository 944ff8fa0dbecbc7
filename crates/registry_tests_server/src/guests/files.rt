//! Files of registries, which nothing reads here, and what is beside them.

use std::alloc::{AllocError, Global};
use std::{env, fs, io, process};

/// Lays an empty file, with nothing beside it.
pub fn lay(rt: &HostRuntime, file: &str) -> io::Result<()> {
    forget(rt, file);
    fs::write(rt, file, "")
}

/// A path in the machine's folder of temporary files, which is short.
pub fn temporary(rt: &HostRuntime, end: &str) -> io::Result<String> {
    let folder = env::temp_dir(rt)?;
    let id = process::id(rt.process());
    Ok(format!(in rt.alloc(); "{}/registry-{id}{end}", folder.as_str())?)
}

/// The folder of the sockets of a file.
pub fn folder(alloc: Global, file: &str) -> Result<String, AllocError> {
    format!(in alloc; "{file}-server")
}

/// Removes a file and the folder of its sockets, as far as they are there.
pub fn forget(rt: &HostRuntime, file: &str) {
    let _ = fs::remove_file(rt, file);
    if let Ok(folder) = folder(rt.alloc(), file) {
        let _ = fs::remove_file(rt, folder.as_str());
        let _ = fs::remove_dir_all(rt, folder.as_str());
    }
}
