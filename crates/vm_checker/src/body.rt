// What stands behind the head of a file.
ghost use Rattle.std.specs.Prelude.{◌≡◌, true};
ghost use Rattle.std.specs.Option.{option_or};
ghost use Rattle.vm_host.specs.declared.Slot.TheVariants.{Second};
ghost use Rattle.vm_transpile.specs.Program.{program_of};
ghost use Rattle.table_format.specs.Stream.{ReadsBy};
ghost use Rattle.vm_checker.specs.Body.{ReadsAll, TellsFile};
ghost use Rattle.vm_checker.specs.FirstReason.{code_test, exit_code, path_test};
ghost use Rattle.vm_checker.specs.Items.{body_of};

use crate::chain::take_segments;
use crate::hints::HintBytes;
use crate::whole::exit_code;
use crate::{Accepted, Before};
use air_core::Extension;
use elf_image::Image;
use page_tree::path_root;
use readings::Stop;
use std::alloc::Global;
use table_format::item::Claim;
use table_format::{Reason, Stream};
use vm_host::Host;
use vm_transpile::Program;

// Why a stated exit code is refused, where this one was found at the end.
fn code_reason(found: Option<u8>, stated: u8) -> Option<Reason>
    ensures { result ≡ code_test found stated }
{
    match found {
        None => Some(Reason::NoEnd),
        Some(found) => {
            if stated == found {
                None
            } else {
                Some(Reason::ExitCode { stated, found })
            }
        }
    }
}

// Why the claim is refused, where the segments end there.
fn claim_reason(program: &Program, end: Before, claim: &Claim) -> Option<Reason>
    ensures { result ≡ option_or (code_test (exit_code program.now end.pc) claim.now.code) (path_test end.root claim.now.public claim.now.path) }
{
    if let Some(reason) = code_reason(exit_code(program, end.pc), claim.code) {
        return Some(reason);
    }
    if path_root(&claim.public, &claim.path) == end.root {
        None
    } else {
        Some(Reason::Public)
    }
}

// The segments and the claim.
fn take_body<E: Extension, H: Host>(
    alloc: Global,
    stream: &mut Stream,
    host: &mut H,
    ext: &E,
    version: u32,
    image: &Image,
    program: &Program,
) -> Result<Accepted, Stop<Reason>>
    requires open { ((H.state host.old).input Second).is_open ≡ true }
    requires program { program.now ≡ program_of image.now }
    ensures { ReadsBy (body_of (E.system ext.now) image.now version) (TellsFile (E.system ext.now) image.now)
        stream.old stream.new (H.state host.old) (H.state host.new) result }
{
    let chain = take_segments(alloc, stream, host, ext, version, image, program)?;
    let claim = stream.claim(host)?;
    if let Some(reason) = claim_reason(program, chain.next, &claim) {
        return Err(Stop::Refused(reason));
    }
    let public = claim.public;
    let root = chain.next.root;
    Ok(Accepted {
        code: claim.code,
        public,
        root,
        segments: chain.segments,
        hints: HintBytes::of(chain.hints),
    })
}

/// The segments and the claim, behind which no byte follows.
pub(crate) fn take_whole<E: Extension, H: Host>(
    alloc: Global,
    stream: &mut Stream,
    host: &mut H,
    ext: &E,
    version: u32,
    image: &Image,
    program: &Program,
) -> Result<Accepted, Stop<Reason>>
    requires open { ((H.state host.old).input Second).is_open ≡ true }
    requires program { program.now ≡ program_of image.now }
    ensures { ReadsAll (body_of (E.system ext.now) image.now version) (TellsFile (E.system ext.now) image.now)
        stream.old stream.new (H.state host.old) (H.state host.new) result }
{
    let accepted = take_body(alloc, stream, host, ext, version, image, program)?;
    if stream.at_end(host)? {
        Ok(accepted)
    } else {
        Err(Stop::Refused(Reason::Trailing {
            offset: stream.offset(),
        }))
    }
}
