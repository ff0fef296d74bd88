// The words of the command line.
ghost use Rattle.std.specs.Prelude.{◌≡◌, map, string_bytes, IfSome};
ghost use Rattle.std.specs.Option.{option_map};
ghost use Rattle.sg_output.specs.Job.{size_of};
ghost use Rattle.sg_live.specs.JobView.{job_of, IsWindow};
ghost use Rattle.sg_live.specs.Words.{job, sized as sized_job};

use sg_output::words::size;

/// What the words ask for: a session over the specification of that name, in a window of that width and height, each
/// from 1 to 1,024.
#[derive(Drop)]
pub struct Asked<'a> {
    pub spec: &'a str,
    pub width: usize,
    pub height: usize,
}

fn sized<'a>(spec: &'a str, width: &str, height: &str) -> Option<Asked<'a>>
    ensures job { option_map job_of result ≡ sized_job spec.now (size_of width.now) (size_of height.now) }
    ensures window { IfSome result (λ asked. IsWindow asked.width asked.height) }
{
    let width = size(width)?;
    let height = size(height)?;
    Some(Asked {
        spec,
        width,
        height,
    })
}

/// The job of these words, if they are one.
pub fn read<'a>(words: &'a [String]) -> Option<Asked<'a>>
    ensures job { option_map job_of result ≡ job (map string_bytes words.now) }
    ensures window { IfSome result (λ asked. IsWindow asked.width asked.height) }
{
    match words {
        [spec] => Some(Asked {
            spec: spec.as_str(),
            width: 80,
            height: 24,
        }),
        [spec, width, height] => sized(spec.as_str(), width.as_str(), height.as_str()),
        _ => None,
    }
}
