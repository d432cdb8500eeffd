//! A certificate, ready to be written.

ghost use Rattle.std.specs.Prelude.{◌≡◌, ◌≤◌, length, OnErr, OnOk};
ghost use Rattle.certificate.specs.Texts.{cert_text};
ghost use Rattle.run_io.specs.Told.{HasCause, Writes, WritesFront};

use certificate::write_cert;
use incr_envelope::Drive;
use run_io::{Failed, Sink};

/// The braking list and the speeds of a run, and how far it goes.
#[derive(Drop)]
pub(crate) struct CertReport {
    pub(crate) drive: Drive,
    ghost shorter: { length drive.speeds.items ≤ length drive.brakes.items },
}

impl CertReport {
    /// The certificate of a run.
    pub(crate) fn of(drive: Drive) -> CertReport
        requires { length drive.speeds.items ≤ length drive.brakes.items }
        ensures { result.drive ≡ drive }
    {
        CertReport { drive }
    }

    /// Writes the text of the certificate.
    pub(crate) fn write<K: Sink>(&self, out: &mut K) -> Result<(), Failed>
        ensures ok { OnOk result (Writes (K.told out.old) (K.told out.new) (cert_text
            self.now.drive.brakes.items self.now.drive.speeds.items self.now.drive.reach)) }
        ensures failed { OnErr result (WritesFront (K.told out.old) (K.told out.new) (cert_text
            self.now.drive.brakes.items self.now.drive.speeds.items self.now.drive.reach)) }
        ensures cause { HasCause (K.told out.old) (K.told out.new) result }
    {
        let Drive {
            brakes,
            speeds,
            reach,
        } = &self.drive;
        write_cert(brakes, speeds, *reach, out)
    }
}
