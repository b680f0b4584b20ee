// A fresh folder for one test.
use sd_value::{NoMemory, Str};
use std::alloc::{AllocError, Global};
use std::test::Fail;
use std::{env, fs, process};

/// A folder of the system's temporary one, for one test of this process.
#[derive(Drop)]
pub struct Folder {
    path: String,
}

impl Folder {
    /// The folder of this name, which is made anew and empty.
    pub fn fresh(rt: &HostRuntime, name: &str) -> Result<Folder, Fail> {
        let alloc = rt.alloc();
        let temporary = env::temp_dir(rt)?;
        let number = process::id(rt.process());
        let path = format!(in alloc; "{}/strudel_{number}_{name}", temporary.display())?;
        let _ = fs::remove_dir_all(rt, path.as_str());
        fs::create_dir(rt, path.as_str())?;
        Ok(Folder { path })
    }

    /// The path of a file of the folder.
    pub fn path(&self, alloc: Global, name: &str) -> Result<String, AllocError> {
        let path = format!(in alloc; "{}/{name}", self.path)?;
        Ok(path)
    }

    /// The folder's own path.
    pub fn as_str(&self, alloc: Global) -> Result<Str, NoMemory> {
        Str::new(alloc, self.path.as_bytes())
    }

    /// Removes the folder with all that is in it.
    pub fn remove(self, rt: &HostRuntime) -> Result<(), Fail> {
        fs::remove_dir_all(rt, self.path.as_str())?;
        Ok(())
    }
}
