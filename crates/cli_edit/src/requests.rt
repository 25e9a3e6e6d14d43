//! What the words ask for.

ghost use Rattle.std.specs.Prelude.{◌≡◌, ◌≢◌, ◌∷◌, [], MatchOption, ℕ, List};
ghost use lib.Chars.{codes};
ghost use Rattle.cli_edit.specs.declared.requests.Given.{Given};
ghost use Rattle.cli_edit.specs.declared.requests.Source.{Source};
ghost use Rattle.cli_edit.specs.declared.requests.Choice.{Choice};
ghost use Rattle.cli_edit.specs.declared.requests.Choice.TheVariants as choices;
ghost use Rattle.cli_edit.specs.declared.requests.Command.{Command};
ghost use Rattle.cli_edit.specs.Requests.{Asks, AsksNothing, AsksNoWork, AsksWork, Begins, FindsWork, GivesKey, IsNamed, IsSourceOf, SplitsDry, is_shown, route_of};
ghost use Rattle.cli_edit.specs.Choices.{FindsTail, FindsWorkOf, words_of};
ghost use Rattle.cli_files.specs.NameLists.{names_of};

use json5_edit::Before;

/// What is done.
#[derive(Clone, Copy, Drop)]
pub enum Command<'w> {
    /// Writes something of the value.
    Show(View),
    Set,
    Insert,
    /// Inserts a member before another one, or before all.
    InsertBefore(Before<'w>),
    Push,
    /// Sets the value, or adds it with what is missing above it.
    Put,
    /// The same where nothing is there; else nothing.
    PutAbsent,
    Rename,
    /// Moves the value to another place.
    Move,
    /// Puts the same value there too.
    Copy,
    Remove,
    /// The same, but leaves the comments before the entry.
    RemoveAlone,
    /// Writes what the comments before an entry say.
    ShowComment,
    /// Puts a comment before an entry.
    Comment,
    /// Puts the members of an object in the order of their keys.
    Sort,
    /// Makes the operations of a JSON Patch.
    Apply,
    /// Merges a merge patch.
    Merge,
}

/// What is written of a value.
#[derive(Clone, Copy, Drop)]
pub enum View {
    /// How it is spelled.
    Spelled,
    /// The same as JSON.
    Json,
    /// The content of a string, and how any other value is spelled.
    Content,
    /// Nothing, as the status says whether it is there.
    Nothing,
    /// The keys of an object, each on a line.
    Keys,
    /// How many elements or members there are.
    Count,
    /// The name of its kind.
    Kind,
}

/// Where VALUE is.
#[derive(Clone, Copy, Drop)]
pub enum Source<'w> {
    /// It is the word itself.
    Word(&'w str),
    Input,
    /// It is in the file of this name.
    File(&'w str),
}

/// VALUE, KEY, TO or TEXT.
#[derive(Clone, Copy, Drop)]
pub struct Given<'w> {
    pub source: Source<'w>,
    /// Whether it is the content of a string.
    pub is_text: bool,
}

/// What is done, in which file and where in it, and with what value or key.
#[derive(Clone, Copy, Drop)]
pub struct Task<'w> {
    pub work: Command<'w>,
    /// The file's name, or `-` for standard input.
    pub file: &'w str,
    /// PATH; the name of the patch's file, or `-`, where one is made.
    pub path: &'w str,
    /// An empty word where there is none.
    pub given: Given<'w>,
    /// Whether it is shown what would change, and nothing is changed.
    pub is_dry: bool,
}

/// What is asked for.
#[derive(Clone, Copy, Drop)]
pub enum EditRequest<'w> {
    Help,
    Version,
    Task(Task<'w>),
}

impl<'w> Task<'w> {
    /// Returns where VALUE is, or the patch.
    ///
    /// ```text
    /// task.source()    // Source::File("edits.json5") of `apply app.json5 edits.json5`
    /// ```
    pub fn source(&self) -> Source<'w>
        ensures { IsSourceOf self.now result }
    {
        match self.work {
            Command::Apply => source_named(self.path),
            Command::Merge => source_named(self.path),
            _ => self.given.source,
        }
    }

    /// Returns PATH, which is empty where a patch is made.
    ///
    /// ```text
    /// task.route()    // `port` of `set app.json5 port 80`
    /// ```
    pub fn route(&self) -> &'w str
        ensures { result.now ≡ route_of self.now }
    {
        match self.work {
            Command::Apply | Command::Merge => "",
            _ => self.path,
        }
    }
}

/// Where the patch of this name is.
fn source_named<'w>(word: &'w str) -> Source<'w>
    ensures { IsNamed word.now result }
{
    if word == "-" {
        return Source::Input;
    }
    Source::File(word)
}

impl<'w> EditRequest<'w> {
    /// Returns what the words after the program's name ask for, or None where they ask for nothing.
    ///
    /// ```text
    /// Request::of(list)    // list: `get`, `app.json5`, `server.port` and `--json`
    /// ```
    pub fn of(list: &'w [String]) -> Option<EditRequest<'w>>
        ensures { MatchOption result (AsksNothing (names_of list.now)) (Asks (names_of list.now)) }
    {
        let Some((word, rest)) = list.split_first() else {
            return None;
        };
        let Some((file, rest)) = rest.split_first() else {
            return question(word.as_str());
        };
        let Some((path, rest)) = rest.split_first() else {
            return None;
        };
        let (rest, is_dry) = split_dry(rest);
        let Some((work, given)) = work_and_given(word.as_str(), rest) else {
            return None;
        };
        Some(EditRequest::Task(Task {
            work,
            file: file.as_str(),
            path: path.as_str(),
            given,
            is_dry,
        }))
    }
}

/// The words but for a `--dry-run` at their end, and whether it is there.
fn split_dry<'w>(words: &'w [String]) -> (&'w [String], bool)
    ensures { SplitsDry result.1 (names_of result.0.now) (names_of words.now) }
{
    let Some((word, rest)) = words.split_last() else {
        return (words, false);
    };
    if word.as_str() == "--dry-run" {
        return (rest, true);
    }
    (words, false)
}

/// Whether the work only shows something of the value.
pub(crate) fn is_shown(work: Command<'_>) -> bool
    ensures { result ≡ is_shown work.entry }
{
    match work {
        Command::Show(_) => true,
        Command::ShowComment => true,
        _ => false,
    }
}

/// The question that this word alone asks.
fn question<'w>(word: &str) -> Option<EditRequest<'w>>
    ensures { MatchOption result (AsksNothing (word.now ∷ [])) (Asks (word.now ∷ [])) }
{
    match word {
        "--help" => Some(EditRequest::Help),
        "-h" => Some(EditRequest::Help),
        "--version" => Some(EditRequest::Version),
        _ => None,
    }
}

/// The work of this name, and the value or key that the words behind the path give it.
fn work_and_given<'w>(word: &str, rest: &'w [String]) -> Option<(Command<'w>, Given<'w>)>
    ensures { MatchOption result (AsksNoWork word.now (names_of rest.now)) (λ x. AsksWork word.now (names_of rest.now) x.0 x.1) }
{
    match word {
        "get" => shown(rest),
        "has" => alone(Command::Show(View::Nothing), rest),
        "keys" => alone(Command::Show(View::Keys), rest),
        "length" => alone(Command::Show(View::Count), rest),
        "type" => alone(Command::Show(View::Kind), rest),
        "remove" => taken_out(rest),
        "sort" => alone(Command::Sort, rest),
        "apply" => alone(Command::Apply, rest),
        "merge" => alone(Command::Merge, rest),
        "rename" => keyed(Command::Rename, rest),
        "move" => keyed(Command::Move, rest),
        "copy" => keyed(Command::Copy, rest),
        "comment" => keyed(Command::Comment, rest),
        _ => valued(word, rest),
    }
}

/// What is given where there is no value.
const NOTHING: Given<'static> = Given {
    source: Source::Word(""),
    is_text: false,
};

/// A work without a value.
fn alone<'w>(work: Command<'w>, rest: &[String]) -> Option<(Command<'w>, Given<'w>)>
    ensures { MatchOption result (names_of rest.now ≢ []) (λ x. (names_of rest.now ≡ []) × (x.0 ≡ work.entry)) }
{
    if rest.is_empty() {
        Some((work, NOTHING))
    } else {
        None
    }
}

/// What the option of `get` asks for.
fn shown<'w>(rest: &'w [String]) -> Option<(Command<'w>, Given<'w>)>
    ensures { MatchOption result (AsksNoWork (codes "get") (names_of rest.now)) (λ x. AsksWork (codes "get") (names_of rest.now) x.0 x.1) }
{
    match rest.split_first() {
        None => Some((Command::Show(View::Spelled), NOTHING)),
        Some((word, more)) if word.as_str() == "--json" => alone(Command::Show(View::Json), more),
        Some((word, more)) if word.as_str() == "--raw" => alone(Command::Show(View::Content), more),
        Some((word, more)) if word.as_str() == "--comment" => alone(Command::ShowComment, more),
        _ => None,
    }
}

/// Whether the comments of what is removed go or stay.
fn taken_out<'w>(rest: &'w [String]) -> Option<(Command<'w>, Given<'w>)>
    ensures { MatchOption result (AsksNoWork (codes "remove") (names_of rest.now)) (λ x. AsksWork (codes "remove") (names_of rest.now) x.0 x.1) }
{
    match rest.split_first() {
        None => Some((Command::Remove, NOTHING)),
        Some((word, more)) if word.as_str() == "--keep-comments" => {
            alone(Command::RemoveAlone, more)
        }
        _ => None,
    }
}

/// A work with a new key, or with the place to which a value goes.
fn keyed<'w>(work: Command<'w>, rest: &'w [String]) -> Option<(Command<'w>, Given<'w>)>
    ensures { MatchOption result ((g : Given) → ¬ (GivesKey g (names_of rest.now))) (λ x. (x.0 ≡ work.entry) × GivesKey x.1 (names_of rest.now)) }
{
    match rest.split_first() {
        Some((key, more)) if more.is_empty() => Some((
            work,
            Given {
                source: Source::Word(key.as_str()),
                is_text: false,
            },
        )),
        _ => None,
    }
}

/// A work with a value.
fn valued<'w>(word: &str, rest: &'w [String]) -> Option<(Command<'w>, Given<'w>)>
    ensures { FindsWork word.now (names_of rest.now) result }
{
    let Some((source, more)) = take_source(rest) else {
        return None;
    };
    let Some(Tail { is_text, choice }) = tail_of(more) else {
        return None;
    };
    match value_work(word, choice) {
        Some(work) => Some((work, Given { source, is_text })),
        None => None,
    }
}

/// When or where a value comes, as an option behind it says.
#[derive(Clone, Copy, Drop)]
enum Choice<'w> {
    /// There is no such option.
    Plain,
    IfAbsent,
    First,
    /// Before the member with this key.
    Before(&'w str),
}

/// The work of this name with a value.
fn value_work<'w>(word: &str, choice: Choice<'w>) -> Option<Command<'w>>
    ensures { FindsWorkOf word.now choice.entry result }
{
    match word {
        "set" => plain(Command::Set, choice),
        "insert" => insert_work(choice),
        "push" => plain(Command::Push, choice),
        "put" => put_work(choice),
        _ => None,
    }
}

/// The work, if there is no option for it.
fn plain<'w>(work: Command<'w>, choice: Choice<'_>) -> Option<Command<'w>>
    ensures { MatchOption result (choice.entry ≢ choices.Plain) (λ w. (w ≡ work.entry) × (choice.entry ≡ choices.Plain)) }
{
    match choice {
        Choice::Plain => Some(work),
        _ => None,
    }
}

fn insert_work<'w>(choice: Choice<'w>) -> Option<Command<'w>>
    ensures { FindsWorkOf (codes "insert") choice.entry result }
{
    match choice {
        Choice::Plain => Some(Command::Insert),
        Choice::IfAbsent => None,
        Choice::First => Some(Command::InsertBefore(Before::First)),
        Choice::Before(key) => Some(Command::InsertBefore(Before::Key(key))),
    }
}

fn put_work<'w>(choice: Choice<'w>) -> Option<Command<'w>>
    ensures { FindsWorkOf (codes "put") choice.entry result }
{
    match choice {
        Choice::Plain => Some(Command::Put),
        Choice::IfAbsent => Some(Command::PutAbsent),
        _ => None,
    }
}

/// The options behind a value.
#[derive(Clone, Copy, Drop)]
struct Tail<'w> {
    is_text: bool,
    choice: Choice<'w>,
}

fn tail_of<'w>(rest: &'w [String]) -> Option<Tail<'w>>
    ensures { FindsTail (names_of rest.now) result }
{
    match rest.split_first() {
        Some((word, more)) if word.as_str() == "--text" => tail_with(true, more),
        _ => tail_with(false, rest),
    }
}

/// The options, of which the first is known, and the second may be here.
fn tail_with<'w>(is_text: bool, rest: &'w [String]) -> Option<Tail<'w>>
    ensures { MatchOption result ((c : Choice) → names_of rest.now ≢ words_of c) (λ t. (t.is_text ≡ is_text) × (names_of rest.now ≡ words_of t.choice)) }
{
    match choice_of(rest) {
        Some(choice) => Some(Tail { is_text, choice }),
        None => None,
    }
}

fn choice_of<'w>(rest: &'w [String]) -> Option<Choice<'w>>
    ensures { MatchOption result ((c : Choice) → names_of rest.now ≢ words_of c) (λ c. names_of rest.now ≡ words_of c) }
{
    let Some((word, more)) = rest.split_first() else {
        return Some(Choice::Plain);
    };
    match more.split_first() {
        None => lone_choice(word.as_str()),
        Some((key, more)) if more.is_empty() && word.as_str() == "--before" => {
            Some(Choice::Before(key.as_str()))
        }
        _ => None,
    }
}

/// The option of one word.
fn lone_choice<'w>(word: &str) -> Option<Choice<'w>>
    ensures { MatchOption result ((c : Choice) → word.now ∷ [] ≢ words_of c) (λ c. word.now ∷ [] ≡ words_of c) }
{
    match word {
        "--if-absent" => Some(Choice::IfAbsent),
        "--first" => Some(Choice::First),
        _ => None,
    }
}

/// Where a value is, and the words behind that.
fn take_source<'w>(rest: &'w [String]) -> Option<(Source<'w>, &'w [String])>
    ensures { MatchOption result ((s : Source) (more : List (List ℕ)) → ¬ (Begins s more (names_of rest.now))) (λ x. Begins x.0 (names_of x.1.now) (names_of rest.now)) }
{
    let Some((word, more)) = rest.split_first() else {
        return None;
    };
    match word.as_str() {
        "--from" => match more.split_first() {
            Some((file, more)) => Some((Source::File(file.as_str()), more)),
            None => None,
        },
        "-" => Some((Source::Input, more)),
        word => Some((Source::Word(word), more)),
    }
}
