// The words of the command line.
ghost use Rattle.std.specs.Prelude.{◌≡◌, map, string_bytes, IfSome};
ghost use Rattle.std.specs.Option.{option_map};
ghost use Rattle.sg_output.specs.Job.{job, job_of_name, load_of, size_of, sized as sized_job};
ghost use Rattle.sg_run.specs.JobView.{job_of, HasWindow};

use sg_output::words::size;
use sg_workload::MOST_STATEMENTS;

/// What the words ask for.
#[derive(Drop)]
pub enum Job<'a> {
    /// To show the first screen of the specification of that name.
    Show(&'a str),
    /// To tell whether the specification of that name has a fault.
    Check(&'a str),
    /// To perform the script of the second name on the specification of the first, in a window of that width and
    /// height, each from 1 to 1,024.
    Run(&'a str, &'a str, usize, usize),
    /// To perform the workload of so many statements, from 1 to 400.
    Load(usize),
    /// To report, by the specification of the first name, the attribute that the third word names of all nodes of the
    /// file of the second.
    Report(&'a str, &'a str, &'a str),
}

fn sized<'a>(name: &'a str, script: &'a str, width: &str, height: &str) -> Option<Job<'a>>
    ensures job { option_map job_of result ≡ sized_job name.now script.now (size_of width.now) (size_of height.now) }
    ensures window { IfSome result HasWindow }
{
    let width = size(width)?;
    let height = size(height)?;
    Some(Job::Run(name, script, width, height))
}

// the workload of so many statements
fn load<'a>(word: &str) -> Option<Job<'a>>
    ensures job { option_map job_of result ≡ load_of word.now }
    ensures window { IfSome result HasWindow }
{
    let count = size(word)?;
    if count > MOST_STATEMENTS {
        return None;
    }
    Some(Job::Load(count))
}

// the job of a word and a name, or of a word and a number
fn named<'a>(word: &str, name: &'a str) -> Option<Job<'a>>
    ensures job { option_map job_of result ≡ job_of_name word.now name.now }
    ensures window { IfSome result HasWindow }
{
    if word == "show" {
        Some(Job::Show(name))
    } else if word == "check" {
        Some(Job::Check(name))
    } else if word == "load" {
        load(name)
    } else {
        None
    }
}

/// The job of these words, if they are one.
pub fn read<'a>(words: &'a [String]) -> Option<Job<'a>>
    ensures job { option_map job_of result ≡ job (map string_bytes words.now) }
    ensures window { IfSome result HasWindow }
{
    match words {
        [word, name] => named(word.as_str(), name.as_str()),
        [word, name, script] if word.as_str() == "run" => {
            Some(Job::Run(name.as_str(), script.as_str(), 80, 24))
        }
        [word, name, file, attr] if word.as_str() == "report" => {
            Some(Job::Report(name.as_str(), file.as_str(), attr.as_str()))
        }
        [word, name, script, width, height] if word.as_str() == "run" => sized(
            name.as_str(),
            script.as_str(),
            width.as_str(),
            height.as_str(),
        ),
        _ => None,
    }
}
