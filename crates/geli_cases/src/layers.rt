//! The layers of a case: what stands between a drawer and disks of the case.
use crate::fault::Fault;
use crate::line::Line;
use crate::run_disk::RunDisk;
use crate::traced_disk::TracedDisk;
use block_traits::{ByteList, Disk, Sector};
use disk_layers::{Concat, WriteBehind};
use eli_metadata::{Metadata, check, decode, size_gate, slot_gate};
use provider::Provider;
use provider_disk::ProviderDisk;
use std::alloc::Global;
use user_key::{Components, PassPart, UserKey, derive};

/// What a layer does with the disk below.
#[derive(Clone, Copy)]
pub enum LayerKind {
    /// So many writes may wait for it.
    Behind,
    /// A second disk follows it.
    Join,
    /// It has a provider.
    Provider,
}

/// A layer of a case.
#[derive(Drop)]
pub enum Layer {
    /// Up to so many writes wait for the disk of this name.
    Behind { under: String, room: u64 },
    /// The disks of these names as one.
    Join { first: String, second: String },
    /// The provider on the disk of this name, which has this passphrase.
    Provider { under: String, passphrase: String },
}

/// The layers of a case, and their names.
#[derive(Drop)]
pub struct Layers {
    layers: Vec<(String, Layer)>,
}

impl Layers {
    /// No layer.
    pub fn new(alloc: Global) -> Layers {
        Layers {
            layers: Vec::new(alloc),
        }
    }

    /// Adds or replaces the layer that a line describes.
    pub fn tell(
        &mut self,
        alloc: Global,
        kind: LayerKind,
        line: &mut Line<'_>,
    ) -> Result<(), Fault> {
        let name = line.word();
        self.forget(name);
        let name = String::from_str(alloc, name)?;
        let under = String::from_str(alloc, line.word())?;
        let layer = layer_of(alloc, kind, under, line)?;
        Ok(self.layers.push((name, layer))?)
    }

    /// The layer of this name.
    pub fn find(&self, name: &str) -> Option<&Layer> {
        for (own, layer) in &self.layers {
            if own.as_str() == name {
                return Some(layer);
            }
        }
        None
    }

    /// The disk below the layer of this name, or the first one; a name that is no layer's is the disk's own.
    pub fn first_below<'a>(&'a self, name: &'a str) -> &'a str {
        match self.find(name) {
            None => name,
            Some(Layer::Behind { under, .. }) => under.as_str(),
            Some(Layer::Join { first, .. }) => first.as_str(),
            Some(Layer::Provider { under, .. }) => under.as_str(),
        }
    }

    /// The second disk below the layer of this name.
    pub fn second_below(&self, name: &str) -> Option<&str> {
        match self.find(name) {
            Some(Layer::Join { second, .. }) => Some(second.as_str()),
            _ => None,
        }
    }

    /// Takes the layer of this name out of the case.
    pub fn forget(&mut self, name: &str) {
        self.layers.retain(|layer| layer.0.as_str() != name);
    }
}

// The layer of a kind over this disk, with what the line says besides.
fn layer_of(
    alloc: Global,
    kind: LayerKind,
    under: String,
    line: &mut Line<'_>,
) -> Result<Layer, Fault> {
    match kind {
        LayerKind::Behind => {
            let room = line.number();
            Ok(Layer::Behind { under, room })
        }
        LayerKind::Join => {
            let second = String::from_str(alloc, line.word())?;
            Ok(Layer::Join {
                first: under,
                second,
            })
        }
        LayerKind::Provider => {
            let passphrase = String::from_str(alloc, line.text())?;
            Ok(Layer::Provider { under, passphrase })
        }
    }
}

/// A disk for which up to `room` writes wait.
pub fn behind(alloc: Global, under: TracedDisk, room: u64) -> Result<RunDisk, Fault> {
    if room < 1 || room > 1024 {
        return Err(Fault::Bad("a room is from 1 to 1,024"));
    }
    match WriteBehind::new(alloc, under, room as u32) {
        Ok(behind) => Ok(RunDisk::Behind(behind)),
        Err(_) => Err(Fault::NoMemory),
    }
}

/// Two disks as one.
pub fn joined(first: TracedDisk, second: TracedDisk) -> Result<RunDisk, Fault> {
    if first.sectors() + second.sectors() < 1 << 44 {
        Ok(RunDisk::Join(Concat::new(first, second)))
    } else {
        Err(Fault::Bad("too many sectors"))
    }
}

/// The provider on a disk whose last sector is this, by its passphrase. No call of the disk is made.
pub fn opened(
    alloc: Global,
    under: TracedDisk,
    last: &Sector,
    passphrase: &str,
) -> Result<RunDisk, Fault> {
    let Ok(meta) = decode(last) else {
        return Err(Fault::Bad("no provider"));
    };
    let key = key_of(alloc, &meta, passphrase)?;
    let provider = attached(alloc, under, &meta, &key)?;
    match ProviderDisk::new(provider) {
        Ok(disk) => Ok(RunDisk::Provider(disk)),
        Err(_) => Err(Fault::Bad("this provider is no disk")),
    }
}

// The key that the passphrase makes under these metadata.
fn key_of(alloc: Global, meta: &Metadata, passphrase: &str) -> Result<UserKey, Fault> {
    let passphrase = Vec::from_slice(alloc, passphrase.as_bytes())?;
    let parts = Components {
        keyfile_count: 0,
        keyfiles: ByteList::from_vec(Vec::new(alloc)),
        passphrase: PassPart::Given(ByteList::from_vec(passphrase)),
    };
    match derive(&parts, &meta.salt, meta.iterations) {
        Ok(key) => Ok(key),
        Err(_) => Err(Fault::Bad("the provider has no passphrase")),
    }
}

// The provider on a disk, open for writing.
fn attached(
    alloc: Global,
    under: TracedDisk,
    meta: &Metadata,
    key: &UserKey,
) -> Result<Provider<TracedDisk>, Fault> {
    let Ok(params) = check(meta) else {
        return Err(Fault::Bad("no provider"));
    };
    if size_gate(meta, under.sectors()).is_err() || slot_gate(meta, None).is_err() {
        return Err(Fault::Bad("no provider"));
    }
    match Provider::attach(alloc, under, meta, &params, key, None, false) {
        Ok(provider) => Ok(provider),
        Err(_) => Err(Fault::Bad("the passphrase opens no provider")),
    }
}
