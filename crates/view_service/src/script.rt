//! The script of the pages.

/// The script that `/view.js` serves. On the page of a trace a field searches the spans, and shows
/// with each span that it finds those above it; a mark at a span folds those under it, and a long
/// trace comes folded below its third level; identifiers can be copied, and keys go to the search
/// and from row to row. The heading names the root, when it began, the errors and the services. In
/// the list of traces, numbers of errors above 0 are marked. No page needs it.
pub(crate) const SCRIPT: &str = "'use strict';
(() => {
  document.querySelectorAll('td:nth-child(4)').forEach((errors) => {
    errors.classList.toggle('errors', errors.textContent !== '0');
  });
  const list = document.querySelector('ol.rows');
  if (!list) return;
  const LONG = 300; // spans above which a trace is folded below its third level
  const LINKS = 8; // errors that the heading has links to, at most
  const ZONED = { dateStyle: 'medium', timeStyle: 'long' };
  const rows = [...list.children];
  const levels = rows.map((row) => Number(row.getAttribute('aria-level')));
  const parents = []; // of each row the place of the row that it is under, or -1
  const path = []; // the places of a row and of those above it
  levels.forEach((level, at) => {
    while (path.length && levels[path.at(-1)] >= level) path.pop();
    parents.push(path.length ? path.at(-1) : -1);
    path.push(at);
  });
  const hasChild = (at) => parents[at + 1] === at;
  const nameOf = (row) => row.querySelector('.label b').textContent;
  const serviceOf = (row) => row.querySelector('.label small').textContent;
  const folded = new Set();
  const opened = new Set();
  const words = [];

  // A text as the search sees it: `cart.id=4711`, `cart.id: 4711` and `cart.id 4711` are the same.
  const plain = (text) => text.toLowerCase().replace(/[=: ]+/g, ' ');

  // All texts of a row, with a space between two elements.
  const textOf = (at) => {
    if (words[at] === undefined) {
      const texts = document.createTreeWalker(rows[at], NodeFilter.SHOW_TEXT);
      const parts = [];
      while (texts.nextNode()) parts.push(texts.currentNode.data);
      words[at] = plain(parts.join(' '));
    }
    return words[at];
  };

  // Hides the rows under folded ones. Answers how many are shown.
  const showUnfolded = () => {
    const hidden = [];
    parents.forEach((parent, at) => {
      hidden[at] = parent >= 0 && (hidden[parent] || folded.has(parent));
      rows[at].hidden = hidden[at];
      rows[at].classList.remove('above');
    });
    return hidden.filter((isHidden) => !isHidden).length;
  };

  // Shows the rows that have a text, and those above them. Answers how many have it.
  const showFound = (asked) => {
    const above = new Set();
    let found = 0;
    for (let at = rows.length - 1; at >= 0; at -= 1) {
      const isFound = textOf(at).includes(asked);
      const isAbove = above.has(at);
      if (isFound) found += 1;
      if (isFound || isAbove) above.add(parents[at]);
      rows[at].hidden = !isFound && !isAbove;
      rows[at].classList.toggle('above', !isFound && isAbove);
    }
    return found;
  };

  const show = () => {
    const asked = plain(search.value).trim();
    const shown = asked ? showFound(asked) : showUnfolded();
    list.classList.toggle('searched', asked !== '');
    count.textContent = shown === rows.length ? '' : `${shown} of ${rows.length} spans`;
    foldAll.textContent = folded.size ? 'Show all' : 'Fold all';
  };

  const fold = (at, isFolded) => {
    if (isFolded) folded.add(at);
    else folded.delete(at);
    marks[at].setAttribute('aria-expanded', String(!isFolded));
  };

  const elementOf = (tag, name, ...parts) => {
    const element = document.createElement(tag);
    element.className = name;
    element.append(...parts);
    return element;
  };

  const buttonOf = (name, text, press) => {
    const button = elementOf('button', name, text);
    button.type = 'button';
    button.addEventListener('click', press);
    return button;
  };

  // A button that copies a text by selecting it: a page may write to the clipboard itself only
  // where it comes from this machine or by https.
  const copierOf = (text) => {
    const copier = buttonOf('copy', '', () => {
      getSelection().setBaseAndExtent(text, 0, text, text.length);
      copier.classList.toggle('done', document.execCommand('copy'));
    });
    copier.setAttribute('aria-label', 'copy this identifier');
    return copier;
  };

  const marks = rows.map((row, at) => {
    if (!hasChild(at)) return null;
    const mark = buttonOf('fold', '', (event) => {
      event.preventDefault();
      fold(at, !folded.has(at));
      show();
    });
    mark.setAttribute('aria-label', 'spans under this one');
    mark.setAttribute('aria-expanded', 'true');
    row.querySelector('.label').prepend(mark);
    return mark;
  });

  const search = elementOf('input', '');
  search.type = 'search';
  search.placeholder = 'any text, or name=value';
  search.size = 24;
  const foldAll = buttonOf('', '', () => {
    const isFolded = folded.size === 0;
    rows.forEach((_, at) => hasChild(at) && fold(at, isFolded));
    show();
  });
  const openAll = buttonOf('', 'Open all', () => {
    const isOpen = opened.size === 0;
    rows.forEach((row) => {
      if (!row.hidden || !isOpen) row.firstChild.open = isOpen;
    });
  });
  const showKeys = () => {
    keyLine.hidden = !keyLine.hidden;
  };
  const keyLine = elementOf('p', '', 'Keys: / goes to the search, j to the next row, k to the one '
    + 'before, enter opens a row or closes it, ? shows or hides this line');
  keyLine.hidden = true;
  const count = elementOf('output', '');
  const form = elementOf('form', '', elementOf('label', '', 'Search', search), foldAll, openAll,
    buttonOf('', 'Keys', showKeys), count);
  form.setAttribute('role', 'search');
  document.querySelector('header').append(form, keyLine);
  search.addEventListener('input', show);
  form.addEventListener('submit', (event) => {
    event.preventDefault();
    search.blur();
    move(1);
  });
  list.addEventListener('toggle', ({ target }) => {
    if (target.open) opened.add(target);
    else opened.delete(target);
    openAll.textContent = opened.size ? 'Close all' : 'Open all';
    const id = target.querySelector('.panel dd');
    if (!id.querySelector('button')) id.append(copierOf(id.firstChild));
  }, true);

  // Goes from the row that has the focus to the next one that is shown, or to the one before.
  const move = (step) => {
    let at = rows.indexOf(document.activeElement.closest('li.row'));
    do at += step; while (rows[at]?.hidden);
    rows[at]?.querySelector('summary').focus();
  };

  const keys = new Map([
    ['/', () => search.focus()], ['j', () => move(1)], ['k', () => move(-1)], ['?', showKeys],
  ]);
  addEventListener('keydown', (event) => {
    const press = keys.get(event.key);
    const isText = event.ctrlKey || event.altKey || event.metaKey || event.target === search;
    if (!press || isText) return;
    event.preventDefault();
    press();
  });

  // Shows the row that the address names.
  const reveal = () => {
    const row = document.getElementById(location.hash.slice(1));
    const at = rows.indexOf(row);
    for (let up = parents[at] ?? -1; up >= 0; up = parents[up]) fold(up, false);
    show();
    if (row?.hidden) {
      search.value = '';
      show();
    }
    if (row) row.scrollIntoView();
  };
  addEventListener('hashchange', reveal);
  if (rows.length > LONG) {
    levels.forEach((level, at) => level === 3 && hasChild(at) && fold(at, true));
  }

  // What the panel of a row says by a word, such as when its span started.
  const factOf = (row, word) => {
    const names = [...row.querySelectorAll('.panel > dl:first-child > dt')];
    return names.find((it) => it.textContent === word)?.nextElementSibling.firstChild;
  };

  // When a span started in the browser's zone, with the same in UTC.
  const timeOf = (row) => {
    const moment = factOf(row, 'start').data.trim();
    const start = new Date(`${moment.slice(0, 23)}Z`);
    const time = elementOf('time', '', start.toLocaleString(undefined, ZONED));
    time.dateTime = moment;
    time.title = moment;
    return time;
  };

  const linkTo = (row) => {
    row.id ||= `row-${rows.indexOf(row)}`;
    const link = elementOf('a', '', nameOf(row));
    link.href = `#${row.id}`;
    return link;
  };

  // The errors of a trace: links to the first ones, and a search for all if there are more.
  const errorsOf = (failed) => {
    const count = failed.length === 1 ? '1 error:' : `${failed.length} errors:`;
    const line = elementOf('p', 'errors', count);
    failed.slice(0, LINKS).forEach((row) => line.append(' ', linkTo(row)));
    if (failed.length > LINKS) {
      line.append(' ', buttonOf('', 'Show these alone', () => {
        search.value = 'status=error';
        show();
      }));
    }
    return line;
  };

  // Has the heading say what the trace is: its root, when that began, its errors, its services.
  const describe = () => {
    const [heading, about] = document.querySelectorAll('header > h1, header > p');
    const trace = heading.querySelector('code');
    const root = rows.find((row, at) => parents[at] < 0 && !factOf(row, 'parent')) ?? rows[0];
    const failed = rows.filter((row) => row.classList.contains('bad'));
    const services = new Map(rows.map((row) => [serviceOf(row), row.classList[1]]));
    document.title = nameOf(root);
    heading.replaceChildren(nameOf(root), ' ', elementOf('small', '', serviceOf(root)));
    heading.after(elementOf('p', '', 'Trace ', trace, copierOf(trace.firstChild)));
    const json = elementOf('a', '', 'As JSON');
    json.href = `/api/trace/${trace.textContent}`;
    about.prepend(timeOf(root), ': ');
    about.append(' ', json);
    if (failed.length) about.after(errorsOf(failed));
    const legend = [...services].map(([name, colour]) => elementOf('span', colour, name));
    form.before(elementOf('p', 'legend', ...legend));
  };

  rows.forEach((row) => {
    row.querySelector('.label').title = `${nameOf(row)}, ${serviceOf(row)}`;
  });
  describe();
  reveal();
})();
";
