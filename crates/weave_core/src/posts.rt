//! For each letter its first sending, and the first by another party than that.
ghost use Rattle.std.specs.Prelude.{◌≡◌, ℕ, ◌<◌, ◌++◌, ◌∷◌, [], List, get_or, length, OnOk, IfOk};
ghost use Rattle.weave_core.specs.Posts.{with_sending, pick, AreKept};
ghost use Rattle.weave_core.specs.declared.posts.Post.TheVariants as post;

use crate::moves::Sent;
use isis_base::OutOfMemory;

/// What is kept of the sendings of a letter: nobody sent it; the number of the first, and who sent
/// it; and the number of the first that another party sent.
#[derive(Clone, Copy, Debug)]
pub(crate) enum Post {
    Nobody,
    One(usize, usize),
    Two(usize, usize, usize),
}

/// A sending more.
fn with_sending(post: Post, number: usize, sender: usize) -> Post
    ensures { result ≡ with_sending post number sender }
{
    match post {
        Post::Nobody => Post::One(number, sender),
        Post::One(first, by) => {
            if by == sender {
                Post::One(first, by)
            } else {
                Post::Two(first, by, number)
            }
        }
        Post::Two(first, by, other) => Post::Two(first, by, other),
    }
}

/// The first sending that fits a party.
pub(crate) fn pick(party: usize, post: Post) -> Option<usize>
    ensures { result ≡ pick party post }
{
    match post {
        Post::Nobody => None,
        Post::One(first, by) => { if by == party { None } else { Some(first) } }
        Post::Two(first, by, other) => {
            if by == party {
                Some(other)
            } else {
                Some(first)
            }
        }
    }
}

/// A letter's post.
pub(crate) fn post_at(posts: &[Post], letter: usize) -> Post
    ensures { result ≡ get_or posts.now letter post.Nobody }
{
    match posts.get(letter) {
        Some(post) => *post,
        None => Post::Nobody,
    }
}

/// Room for a letter.
fn grow(posts: &mut Vec<Post>, letter: usize) -> Result<(), OutOfMemory>
    ensures room { OnOk result (letter < length posts.new.items) }
    ensures same { (l : ℕ) → get_or posts.new.items l post.Nobody
        ≡ get_or posts.old.items l post.Nobody }
{
    while posts.len() <= letter {
        posts.push(Post::Nobody)?;
    }
    Ok(())
}

/// A party sends a letter. At an error nothing that is kept changed.
pub(crate) fn send(
    posts: &mut Vec<Post>,
    sent: &mut Vec<Sent>,
    party: usize,
    letter: usize,
) -> Result<(), OutOfMemory>
    ensures kept { AreKept posts.old.items sent.old.items → AreKept posts.new.items sent.new.items }
    ensures sent { OnOk result (sent.new.items
        ≡ sent.old.items ++ (record { letter = letter; sender = party } ∷ [])) }
{
    grow(posts, letter)?;
    sent.push(Sent {
        letter,
        sender: party,
    })?;
    posts[letter] = with_sending(posts[letter], sent.len(), party);
    Ok(())
}
