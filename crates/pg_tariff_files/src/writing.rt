//! Tariffs are written before a certificate.
ghost use Rattle.std.specs.Prelude.{◌≡◌, ◌<◌, ◌≤◌, [], get_or, length, IfOk};
ghost use Rattle.pg_certificate.specs.Pushing.{Adds, Pushes};
ghost use Rattle.pg_tolls.specs.Stated.{stated};
ghost use Rattle.pg_tariff_files.specs.Files.{AreStated, lead, nothing};

use crate::carried::MAGIC;
use crate::stated::stating;
use pg_certificate::{Refused, Sink};
use pg_tolls::Tariff;
use std::alloc::{AllocError, Global};

/// The bytes that state tariffs, one after the other.
///
/// # Errors
/// Where memory is refused.
pub fn stating_all(alloc: Global, tariffs: &[Tariff]) -> Result<Vec<u8>, AllocError>
    ensures { IfOk result (λ bytes. AreStated bytes.items (λ i. stated (get_or tariffs.now i nothing)) (length tariffs.now)) }
{
    let mut bytes = Vec::new(alloc);
    for tariff in tariffs {
        bytes.extend_from_slice(&stating(tariff))?;
    }
    Ok(bytes)
}

/// Writes what stands before the certificate of a file that carries `number` tariffs, which these bytes state.
///
/// # Errors
/// `Refused` where the sink refuses it.
pub fn write_carried<W: Sink>(number: u8, stated: &[u8], sink: &mut W) -> Result<(), Refused>
    ensures { Pushes W.held W.has_failed (Adds (lead number stated.now)) sink.old sink.new result }
{
    sink.push(&MAGIC)?;
    sink.push(&[number])?;
    sink.push(stated)
}
